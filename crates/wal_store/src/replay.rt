ghost use Rattle.std.specs.Prelude.{◌≡◌, ◌≢◌, ◌≤◌, ◌<◌, ◌+◌, ◌++◌, ◌∷◌, [], ℕ, List, length, Err, IfOk, IfErr, IfSome, IfNone, OnOk, OnErr, IsTrue, IsErrOf};
ghost use Rattle.shard_disk.specs.Crash.{Leaves, Same};
ghost use Rattle.shard_disk.specs.Directory.{HasFile, IsPresent};
ghost use Rattle.shard_disk.specs.declared.damage.Damage.{Damage};
ghost use Rattle.shard_disk.specs.declared.damage.Why.{Why};
ghost use Rattle.gate_log.specs.Damage.{TellsOf};
ghost use Rattle.gate_log.specs.Faults.{LogHasCause};
ghost use Rattle.wal_store.specs.Replay.{IsStrange, Logged, StandsStrange};
ghost use Rattle.wal_store.specs.Segments.{SpellsRecord, last_number, one_segment, with_segment};

use crate::Wal;
use crate::record::take_record;
use gate_log::{Log, LogFault};
use point_model::Entry;
use shard_disk::{Damage, Disk, Why};
use std::alloc::Global;
use std::collections::VecDeque;
use std::marker::Model;
use tsdb_types::Seed;

/// Where a record stands: the number of its segment, and the place of its gate there.
#[derive(Clone, Copy, Debug, PartialEq, Eq)]
pub struct Place {
    pub file: u32,
    pub offset: u64,
}

/// A log in segments that is read entry by entry. One segment after another is opened, and its entries are taken before the
/// next one is; so no more than one segment is held.
///
/// What is wrong is named as it is met: segment by segment what reading its log names, and then record by record `Body` where it
/// is no entry's and `Number` where it is past the floor and not one more than the last one that was. Every record is read, also
/// those at or below the floor, of which the numbers aren't compared with each other.
#[derive(Drop)]
pub struct Replay {
    alloc: Global,
    seed: Seed,
    floor: u64,
    wal: Wal,
    left: VecDeque<Vec<u8>>,
    gate: u64,
}

impl Model for Replay {
    ghost use Rattle.gate_log.specs.Damage.{bodies};
    ghost use Rattle.wal_store.specs.Reading.{Replaying};

    ghost Value = { Replaying };

    ghost view = { λ r. record { floor = r.floor; wal = r.wal; left = bodies r.left.items; gate = r.gate } };
}

impl Replay {
    ghost use Rattle.gate_log.specs.Calls.Read.{Reads as ReadsLog};
    ghost use Rattle.wal_store.specs.Reading.{Ends, Follows, Gives, HasRead, NextIsStrange, Passes, Replaying};

    /// Opens the first segment. Entries up to this number, which is at most 2^63 - 1, are passed over. The file is made durable
    /// before it answers.
    pub fn open<D: Disk>(
        alloc: Global,
        seed: Seed,
        disk: &mut D,
        file: u32,
        floor: u64,
    ) -> Result<Replay, LogFault>
        requires most { floor ≤ last_number }
        requires present { IsTrue D.tells → IsPresent (D.files disk.old) file }

        ensures ok { IfOk result (λ replay. (replay ≡ record { floor = floor; wal = one_segment replay.wal.log floor; left = replay.left; gate = 0 })
            × ReadsLog (IsTrue D.tells) file replay.wal.log replay.left (D.files disk.new) (D.crashes disk.old) (D.crashes disk.new)) }
        ensures damaged { IfErr result (λ fault. IsTrue D.tells → HasFile (D.files disk.old) file (TellsOf fault file)) }
        ensures fault { LogHasCause result (D.health disk.old) (D.health disk.new) }

        ensures files { D.files disk.new ≡ D.files disk.old }
        ensures crash { Leaves Same (D.crashes disk.old) (D.crashes disk.new) }
        ensures handed_out { D.handed_out disk.new ≡ D.handed_out disk.old }
    {
        let (log, records) = Log::read(alloc, disk, file)?;
        let wal = match Wal::of(alloc, log, floor) {
            Ok(wal) => wal,
            Err(_) => return Err(LogFault::Memory),
        };
        Ok(Replay {
            alloc,
            seed,
            floor,
            wal,
            left: VecDeque::from(records),
            gate: 0,
        })
    }

    /// Opens the next segment, where the open one is read to its end. A refusal leaves the segments as they are. The file is made
    /// durable before it answers.
    pub fn go_on<D: Disk>(&mut self, disk: &mut D, file: u32) -> Result<(), LogFault>
        requires read { self.old.left ≡ [] }
        requires present { IsTrue D.tells → IsPresent (D.files disk.old) file }

        ensures ok { OnOk result ((self.new ≡ record { floor = self.old.floor; wal = with_segment self.old.wal self.new.wal.log; left = self.new.left; gate = 0 })
            × ReadsLog (IsTrue D.tells) file self.new.wal.log self.new.left (D.files disk.new) (D.crashes disk.old) (D.crashes disk.new)) }
        ensures refused { OnErr result (self.new ≡ self.old) }
        ensures damaged { IfErr result (λ fault. IsTrue D.tells → HasFile (D.files disk.old) file (TellsOf fault file)) }
        ensures fault { LogHasCause result (D.health disk.old) (D.health disk.new) }

        ensures files { D.files disk.new ≡ D.files disk.old }
        ensures crash { Leaves Same (D.crashes disk.old) (D.crashes disk.new) }
        ensures handed_out { D.handed_out disk.new ≡ D.handed_out disk.old }
    {
        let (log, records) = Log::read(self.alloc, disk, file)?;
        self.wal.reserve()?;
        self.wal.push_segment(log);
        self.left = VecDeque::from(records);
        self.gate = 0;
        Ok(())
    }

    /// The next entry past the floor of the open segment, and where its record stands; `None` where there is none. A refusal loses no
    /// entry: the next call goes on at the record that wasn't taken, and is refused again where that is damaged.
    pub fn next(&mut self) -> Result<Option<(Place, Entry)>, LogFault>
        ensures given { IfOk result (λ next. IfSome next (λ given. Gives self.old self.new given.0 given.1)) }
        ensures over { IfOk result (λ next. IfNone next (Ends self.old self.new)) }
        ensures refused { OnErr result (Passes self.old self.new) }
        ensures strange { (damage : Damage) → result ≡ Err (LogFault.Damaged damage) → (before here : List Logged) (records : List (List ℕ)) → HasRead self.old before here records
            → StandsStrange damage self.old.wal.log.file self.old.floor before (records ++ self.old.left) }
        ensures no_fault { IsErrOf result LogFault.Fault → ⊥ }
    {
        for _ in 0..u64::MAX {
            let place = self.place();
            let Some((number, entry)) = self.follow()? else {
                return Ok(None);
            };
            if number > self.floor {
                return Ok(Some((place, entry)));
            }
        }
        // No list is that long.
        Err(LogFault::Memory)
    }

    /// The log that goes on behind what was read, where the last segment is read to its end.
    pub fn into_wal(self) -> Wal
        requires { self.left ≡ [] }
        ensures { result ≡ self.wal }
    {
        self.wal
    }

    /// Where the next record stands.
    fn place(&self) -> Place
        ensures { result ≡ record { file = self.now.wal.log.file; offset = self.now.gate } }
    {
        Place {
            file: self.wal.last_file(),
            offset: self.gate,
        }
    }

    /// What is wrong with the next record.
    fn damage(&self, why: Why) -> LogFault
        ensures { result ≡ LogFault.Damaged (record { file = self.now.wal.log.file; offset = self.now.gate; why = why }) }
    {
        LogFault::Damaged(Damage {
            file: self.wal.last_file(),
            offset: self.gate,
            why,
        })
    }

    /// Takes the next record, where there is one: its number and its entry. A refusal leaves it where it stands.
    fn follow(&mut self) -> Result<Option<(u64, Entry)>, LogFault>
        ensures follows { IfOk result (λ read. IfSome read (λ taken. Follows self.old self.new taken.0 taken.1)) }
        ensures over { IfOk result (λ read. IfNone read ((self.old.left ≡ []) × (self.new ≡ self.old))) }
        ensures refused { OnErr result (self.new ≡ self.old) }
        ensures strange { (damage : Damage) → result ≡ Err (LogFault.Damaged damage) → NextIsStrange damage self.old }
        ensures no_fault { IsErrOf result LogFault.Fault → ⊥ }
    {
        let Some(body) = self.left.front() else {
            return Ok(None);
        };
        let (number, entry, gate) = self.read(body)?;
        let _ = self.left.pop_front();
        self.gate = gate;
        self.wal.pass(number);
        Ok(Some((number, entry)))
    }

    /// The number and the entry of the next record, of which this is the body, and the gate behind it.
    fn read(&self, body: &[u8]) -> Result<(u64, Entry, u64), LogFault>
        ensures spells { IfOk result (λ read. SpellsRecord read.0 read.1 body.now) }
        ensures gate { IfOk result (λ read. read.2 ≡ self.now.gate + (9 + length body.now)) }
        ensures next { IfOk result (λ read. self.now.floor < read.0 → read.0 ≡ self.now.wal.last + 1) }
        ensures strange { (damage : Damage) → result ≡ Err (LogFault.Damaged damage)
            → (why : Why) × (damage ≡ record { file = self.now.wal.log.file; offset = self.now.gate; why = why })
            × ((before here : List Logged) (records : List (List ℕ)) → HasRead self.now before here records → IsStrange why self.now.floor (before ++ here) body.now) }
        ensures no_fault { IsErrOf result LogFault.Fault → ⊥ }
    {
        let Some((number, entry)) = take_record(self.alloc, self.seed, body)? else {
            return Err(self.damage(Why::Body));
        };
        if number > self.floor && number - 1 != self.wal.last() {
            return Err(self.damage(Why::Number));
        }
        // No file is longer than 64 bits say.
        let Some(gate) = self.gate.checked_add(9 + body.len() as u64) else {
            return Err(LogFault::Memory);
        };
        Ok((number, entry, gate))
    }
}
