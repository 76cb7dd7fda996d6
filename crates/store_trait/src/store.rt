ghost use Rattle.std.specs.Prelude.{◌≡◌, Contains, false, IfOk, IfErr, OnErr};
ghost use Rattle.shard_disk.specs.Health.{Health, Ages, IsFresh};
ghost use Rattle.point_model.specs.Acceptance.{IsWritable};
ghost use Rattle.point_model.specs.Deletions.{IsLoggable};
ghost use Rattle.point_model.specs.declared.entry.Entry.TheVariants.{Write, Delete};
ghost use Rattle.store_trait.specs.Told.{Told, Keeps, IsAlike, Refuses, state_now};
ghost use Rattle.store_trait.specs.Calls.Delete.{DeleteHasCause, IsQuiet as IsQuietDelete, MayBeTried as MayBeTriedDelete};
ghost use Rattle.store_trait.specs.Calls.Entry.{Accepts};
ghost use Rattle.store_trait.specs.Calls.Write.{WriteHasCause, IsQuiet as IsQuietWrite, MayBeTried as MayBeTriedWrite};
ghost use Rattle.store_trait.specs.Laws.{AloneChangesItself};
ghost use Rattle.store_trait.specs.Calls.View.{Begins, Ends, TakesBack, ViewHasCause, IsQuiet as IsQuietView};

use crate::{DeleteFault, ViewFault, WriteFault};
use point_model::{Deletion, Need, PointCursor};
use tsdb_types::Batch;

/// Points that a client writes to, deletes from and reads. Its points are those of its start behind the entries of its history,
/// which other clients may add to between its calls, but where the store is alone. A refused call leaves the points and the
/// numbers, but for entries of others; what a fault or want of memory refused is told as tried, since a crash may leave it. The count of faults rises by an answer that tells one, and by the end of a view that met one.
pub trait Store {
    type View: PointCursor;

    ghost told: { Self → Told };

    /// Its count of faults, and whether neither it nor what it hands out fails any more.
    ghost health: { Self → Health };

    /// Makes one entry of the batch and gives its number, at most 9223372036854775807.
    fn write(&mut self, batch: &Batch) -> Result<u64, WriteFault>
        requires { IsWritable batch.now }
        ensures ok { IfOk result (λ number. Accepts (Write (told self.old).client batch.now) number (told self.old) (told self.new)) }
        ensures err { IfErr result (λ why. Refuses (Write (told self.old).client batch.now) (MayBeTriedWrite why) (told self.old) (told self.new)) }
        ensures refused { IfErr result (WriteHasCause batch.now (told self.new) (health self.old) (health self.new)) }
        ensures kept { Keeps (told self.old) (told self.new) }
        ensures ages { Ages (health self.old) (health self.new) }
        ensures quiet { IsQuietWrite result (health self.old) (health self.new) };

    /// Makes one entry of the deletion and gives its number, at most 9223372036854775807. A deletion that meets no point is an
    /// entry like any other.
    fn delete(&mut self, deletion: &Deletion) -> Result<u64, DeleteFault>
        requires { IsLoggable deletion.now }
        ensures ok { IfOk result (λ number. Accepts (Delete (told self.old).client deletion.now) number (told self.old) (told self.new)) }
        ensures err { IfErr result (λ why. Refuses (Delete (told self.old).client deletion.now) (MayBeTriedDelete why) (told self.old) (told self.new)) }
        ensures refused { IfErr result (DeleteHasCause (told self.new) (health self.old) (health self.new)) }
        ensures kept { Keeps (told self.old) (told self.new) }
        ensures ages { Ages (health self.old) (health self.new) }
        ensures quiet { IsQuietDelete result (health self.old) (health self.new) };

    /// A view of the points as they are now. It has to be ended.
    fn begin_view(&mut self, need: &Need) -> Result<Self::View, ViewFault>
        ensures ok { IfOk result (λ view. Begins need.now (Self.View.shown view) (Self.View.loan view)
            (Self.View.can_be_damaged view) (told self.old) (told self.new)) }
        ensures usable { IfOk result (λ view. Self.View.is_spent view ≡ false) }
        ensures fresh { IfOk result (λ view. IsFresh (health self.old) (Self.View.health view)) }
        ensures err { OnErr result (IsAlike (told self.old) (told self.new)) }
        ensures refused { IfErr result (ViewHasCause (told self.new) (health self.old) (health self.new)) }
        ensures kept { Keeps (told self.old) (told self.new) }
        ensures ages { Ages (health self.old) (health self.new) }
        ensures quiet { IsQuietView result (health self.old) (health self.new) };

    /// Takes back a view that is out. It takes no memory.
    fn end_view(&mut self, view: Self::View)
        requires { Contains (told self.old).out (Self.View.loan view) }
        ensures ended { Ends (Self.View.loan view) (told self.old) (told self.new) }
        ensures kept { Keeps (told self.old) (told self.new) }
        ensures health { TakesBack (Self.View.health view) (health self.old) (health self.new) };

    /// The number of the last entry, or that of the start where there is none.
    fn number(&mut self) -> u64
        ensures number { result ≡ (state_now (told self.new)).number }
        ensures alike { IsAlike (told self.old) (told self.new) }
        ensures kept { Keeps (told self.old) (told self.new) }
        ensures health { health self.new ≡ health self.old };
}

/// A store that is alone has no entries but its own: a refused call makes none, and an accepted one makes its own.
pub fn alone_changes_itself()
    ensures { AloneChangesItself }
{}
