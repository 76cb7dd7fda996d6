ghost use Rattle.std.specs.Prelude.{◌≡◌, ◌+◌, ◌<◌, ◌++◌, [], ◌∷◌, List, ℕ, IsTrue, Option, IfOk, OnErr, is_ok, if◌then◌else◌, option_copied};
ghost use Rattle.shard_disk.specs.Health.{Health};
ghost use Rattle.session_io.specs.Clients.{Held, IsFresh, IsHeld, HandsOut, OpeningHasCause, closed_client, is_steady};
ghost use Rattle.session_io.specs.Directories.{HandsOutDir, HasNoReader, HeldDir, IsHeldDir, Left, OfClient, OfDir};

use crate::{Client, Clock, Report, Sink, Source};
use shard_disk::{Disk, Trouble};

/// Opens the directories and the clients of a run, and takes them back.
pub trait Desk {
    type Disk: Disk;

    type Source: Source;

    type Sink: Sink;

    type Clock: Clock;

    /// The directories that it will still hand out, in order, where it tells them.
    ghost dirs: { Self → Option (List (HeldDir Self.Disk)) };

    /// The clients that it will still hand out, in order, where it tells them.
    ghost held: { Self → Option (List (Held Self.Source Self.Sink Self.Clock)) };

    /// How many directories are out. Every desk tells it.
    ghost dirs_out: { Self → ℕ };

    /// How many clients are out. Every desk tells it.
    ghost out: { Self → ℕ };

    /// What was left of each client and each directory that was taken back, in order. Every desk tells it.
    ghost closed: { Self → List (Left Self.Disk) };

    /// A steady desk opens each directory and each client that it holds, and none of what it hands out fails.
    ghost health: { Self → Health };

    /// Opens the first directory of this path. No reader of its disk is out.
    fn open_dir(&mut self, path: &str) -> Result<Self::Disk, Trouble>
        ensures free { IfOk result (λ disk. HasNoReader (Self.Disk.handed_out disk)) }
        ensures dirs { IfOk result (λ disk. HandsOutDir path.now disk (dirs self.old) (dirs self.new)) }
        ensures steady { IfOk result (λ disk. IsTrue (health self.old).is_steady → IsTrue (Self.Disk.health disk).is_steady) }
        ensures refused { OnErr result (dirs self.new ≡ dirs self.old) }
        ensures dirs_out { dirs_out self.new ≡ (if is_ok result then dirs_out self.old + 1 else dirs_out self.old) }
        ensures closed { closed self.new ≡ closed self.old }
        ensures clients { (held self.new ≡ held self.old) × (out self.new ≡ out self.old) }
        ensures fault { OpeningHasCause result (IsHeldDir path.now (dirs self.old)) (health self.old) (health self.new) };

    /// Takes a directory back.
    fn close_dir(&mut self, disk: Self::Disk)
        requires { 0 < dirs_out self.old }
        ensures dirs_out { dirs_out self.new + 1 ≡ dirs_out self.old }
        ensures closed { closed self.new ≡ closed self.old ++ OfDir disk ∷ [] }
        ensures dirs { dirs self.new ≡ dirs self.old }
        ensures clients { (held self.new ≡ held self.old) × (out self.new ≡ out self.old) }
        ensures health { health self.new ≡ health self.old };

    /// Opens the first client of these names. Nothing was read from, written to or asked of it.
    fn open_client(
        &mut self,
        input: &str,
        output: &str,
    ) -> Result<Client<Self::Source, Self::Sink, Self::Clock>, Trouble>
        ensures fresh { IfOk result (IsFresh Self.Source.given Self.Source.ended Self.Source.health
            Self.Sink.written Self.Sink.health Self.Clock.moments) }
        ensures held { IfOk result (λ client. HandsOut input.now output.now client (held self.old) (held self.new)) }
        ensures steady { IfOk result (λ client. IsTrue (health self.old).is_steady
            → IsTrue (is_steady Self.Source.health Self.Sink.health client)) }
        ensures refused { OnErr result (held self.new ≡ held self.old) }
        ensures out { out self.new ≡ (if is_ok result then out self.old + 1 else out self.old) }
        ensures closed { closed self.new ≡ closed self.old }
        ensures dirs { (dirs self.new ≡ dirs self.old) × (dirs_out self.new ≡ dirs_out self.old) }
        ensures fault { OpeningHasCause result (IsHeld input.now output.now (held self.old)) (health self.old) (health self.new) };

    /// Takes a client back, with its report where it was served.
    fn close_client(
        &mut self,
        client: Client<Self::Source, Self::Sink, Self::Clock>,
        report: Option<&Report>,
    )
        requires { 0 < out self.old }
        ensures out { out self.new + 1 ≡ out self.old }
        ensures closed { closed self.new ≡ closed self.old ++ OfClient (closed_client Self.Source.given Self.Source.ended
            Self.Source.health Self.Sink.written Self.Sink.health Self.Clock.moments client (option_copied report.entry)) ∷ [] }
        ensures held { held self.new ≡ held self.old }
        ensures dirs { (dirs self.new ≡ dirs self.old) × (dirs_out self.new ≡ dirs_out self.old) }
        ensures health { health self.new ≡ health self.old };
}
