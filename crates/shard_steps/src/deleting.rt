// A deletion becomes an entry.
ghost use Rattle.std.specs.Prelude.{◌≡◌, None, IfOk, IfErr, OnErr};
ghost use Rattle.shard_disk.specs.Health.{Ages};
ghost use Rattle.point_model.specs.Deletions.{IsLoggable};
ghost use Rattle.point_model.specs.declared.entry.Entry.TheVariants.{Delete};
ghost use Rattle.live_points.specs.Removed.{IsRemovalOf};
ghost use Rattle.shard_state.specs.Engine.{IsRecordOf, MayEnter};
ghost use Rattle.shard_steps.specs.Calls.Delete.{AddsDeletion, GoesOn, HasCause, IsQuiet, LeavesRest};
ghost use Rattle.shard_steps.specs.Shards.{IsReady, state_of};

use crate::Shard;
use crate::writing::LAST_NUMBER;
use live_points::Removal;
use point_model::Deletion;
use shard_disk::{Disk, Trouble};
use shard_state::Prepared;
use store_trait::DeleteFault;

/// Makes one entry of a deletion and gives its number; a deletion that meets no point is accepted like any other. All memory is taken
/// before the log is touched: the record, and what is taken away of the points. Then the entry is added, and only then the points go.
/// After a refusal the points and the number are as they were, and after a fault the entry may be in doubt: a crash may then leave it,
/// until the next entry or `close` ends the doubt.
pub fn delete<D: Disk>(
    shard: &mut Shard<D>,
    client: u32,
    deletion: &Deletion,
) -> Result<u64, DeleteFault>
    requires ready { IsReady D.Disk shard.old }
    requires loggable { IsLoggable deletion.now }

    ensures ok { IfOk result (λ number. AddsDeletion client deletion.now number shard.old shard.new) }
    ensures err { OnErr result (state_of shard.new ≡ state_of shard.old) }
    ensures kept { LeavesRest D.Disk shard.old shard.new }
    ensures refused { IfErr result (HasCause shard.old (D.health shard.old.logs.disk) (D.health shard.new.logs.disk)) }
    ensures goes_on { GoesOn D.Disk client deletion.now shard.old shard.new result }
    ensures ready { IsReady D.Disk shard.new }
    ensures ages { Ages (D.health shard.old.logs.disk) (D.health shard.new.logs.disk) }
    ensures quiet { IsQuiet result (D.health shard.old.logs.disk) (D.health shard.new.logs.disk) }
{
    if shard.logs.number() >= LAST_NUMBER {
        return Err(DeleteFault::HistoryFull);
    }
    let removal = shard.live.prepare_removal(deletion)?;
    let prepared = shard.logs.prepare_deletion(client, deletion)?;
    shard.commit_deletion(client, deletion, removal, prepared)
}

impl<D: Disk> Shard<D> {
    /// Adds the entry of a deletion to the log, and then takes its points away. It takes no memory of its own.
    fn commit_deletion(
        &mut self,
        client: u32,
        deletion: &Deletion,
        removal: Removal,
        prepared: Prepared,
    ) -> Result<u64, DeleteFault>
        requires ready { IsReady D.Disk self.old }
        requires may { MayEnter self.old.logs prepared }
        requires none { prepared.series ≡ None }
        requires record { IsRecordOf (Delete client deletion.now) prepared }
        requires removes { IsRemovalOf deletion.now self.old.live.points removal }

        ensures ok { IfOk result (λ number. AddsDeletion client deletion.now number self.old self.new) }
        ensures err { OnErr result (state_of self.new ≡ state_of self.old) }
        ensures kept { LeavesRest D.Disk self.old self.new }
        ensures refused { IfErr result (HasCause self.old (D.health self.old.logs.disk) (D.health self.new.logs.disk)) }
        ensures goes_on { GoesOn D.Disk client deletion.now self.old self.new result }
        ensures ready { IsReady D.Disk self.new }
        ensures ages { Ages (D.health self.old.logs.disk) (D.health self.new.logs.disk) }
        ensures quiet { IsQuiet result (D.health self.old.logs.disk) (D.health self.new.logs.disk) }
    {
        let _ = client;
        match self.logs.enter(prepared) {
            Ok(()) => {
                self.live.remove(deletion, removal);
                Ok(self.logs.number())
            }
            Err(Trouble::Memory) => Err(DeleteFault::Memory),
            Err(Trouble::Fault) => Err(DeleteFault::Fault),
        }
    }
}
