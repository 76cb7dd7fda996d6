ghost use Rattle.std.specs.Prelude.{◌≡◌, IfOk, IfErr, OnErr};
ghost use Rattle.shard_disk.specs.Health.{Ages};
ghost use Rattle.point_model.specs.Acceptance.{IsWritable};
ghost use Rattle.point_model.specs.Deletions.{IsLoggable};
ghost use Rattle.store_trait.specs.Calls.Write.{IsQuiet};
ghost use Rattle.shard_steps.specs.Calls.Delete.{AddsDeletion, GoesOn as GoesOnDeleted, HasCause as HasDeleteCause, IsQuiet as IsQuietDelete, LeavesRest};
ghost use Rattle.shard_steps.specs.Calls.Write.{Adds, GoesOn, HasCause, Keeps};
ghost use Rattle.shard_steps.specs.Shards.{IsReady, state_of};

use mem_disk::{Fuse, MemDisk};
use point_model::Deletion;
use shard_disk::Disk;
use shard_steps::Shard;
use store_trait::{DeleteFault, WriteFault};
use tsdb_types::Batch;

/// A disk that an engine can stand on. It has the engine's write and its deletion as calls of its own, since an `impl` for every disk can't call a
/// function that asks for a disk: what a disk is bound to, that it may be sent to a thread, is known there of one thread alone.
pub trait EngineDisk: Disk {
    /// `shard_steps::write`, on this disk.
    fn write(shard: &mut Shard<Self>, client: u32, batch: &Batch) -> Result<u64, WriteFault>
        requires ready { IsReady Self.Disk shard.old }
        requires writable { IsWritable batch.now }

        ensures ok { IfOk result (λ number. Adds client batch.now number shard.old shard.new) }
        ensures err { OnErr result (state_of shard.new ≡ state_of shard.old) }
        ensures kept { Keeps shard.old shard.new }
        ensures refused { IfErr result (HasCause batch.now shard.old (Self.Disk.health shard.old.logs.disk) (Self.Disk.health shard.new.logs.disk)) }
        ensures goes_on { GoesOn Self.Disk client batch.now shard.old shard.new result }
        ensures ready { IsReady Self.Disk shard.new }
        ensures ages { Ages (Self.Disk.health shard.old.logs.disk) (Self.Disk.health shard.new.logs.disk) }
        ensures quiet { IsQuiet result (Self.Disk.health shard.old.logs.disk) (Self.Disk.health shard.new.logs.disk) };

    /// `shard_steps::delete`, on this disk.
    fn delete(shard: &mut Shard<Self>, client: u32, deletion: &Deletion) -> Result<u64, DeleteFault>
        requires ready { IsReady Self.Disk shard.old }
        requires loggable { IsLoggable deletion.now }

        ensures ok { IfOk result (λ number. AddsDeletion client deletion.now number shard.old shard.new) }
        ensures err { OnErr result (state_of shard.new ≡ state_of shard.old) }
        ensures kept { LeavesRest Self.Disk shard.old shard.new }
        ensures refused { IfErr result (HasDeleteCause shard.old (Self.Disk.health shard.old.logs.disk) (Self.Disk.health shard.new.logs.disk)) }
        ensures goes_on { GoesOnDeleted Self.Disk client deletion.now shard.old shard.new result }
        ensures ready { IsReady Self.Disk shard.new }
        ensures ages { Ages (Self.Disk.health shard.old.logs.disk) (Self.Disk.health shard.new.logs.disk) }
        ensures quiet { IsQuietDelete result (Self.Disk.health shard.old.logs.disk) (Self.Disk.health shard.new.logs.disk) };
}

impl EngineDisk for MemDisk {
    fn write(shard: &mut Shard<MemDisk>, client: u32, batch: &Batch) -> Result<u64, WriteFault> {
        shard_steps::write(shard, client, batch)
    }

    fn delete(
        shard: &mut Shard<MemDisk>,
        client: u32,
        deletion: &Deletion,
    ) -> Result<u64, DeleteFault> {
        shard_steps::delete(shard, client, deletion)
    }
}

impl EngineDisk for Fuse {
    fn write(shard: &mut Shard<Fuse>, client: u32, batch: &Batch) -> Result<u64, WriteFault> {
        shard_steps::write(shard, client, batch)
    }

    fn delete(
        shard: &mut Shard<Fuse>,
        client: u32,
        deletion: &Deletion,
    ) -> Result<u64, DeleteFault> {
        shard_steps::delete(shard, client, deletion)
    }
}
