ghost use Rattle.shard_core.specs.Laws.{FieldsGiveContents, CrashesLeave, EventsCome, EventsKeep, EveryListKeeps};

/// What the fields of a shard give of contents: tombstones, entries that are taken, batches that are accepted.
pub fn fields_give_contents()
    ensures { FieldsGiveContents }
{}

/// Each event keeps what holds of the state.
pub fn events_keep()
    ensures { EventsKeep }
{}

/// What holds of the state is kept over every list of events.
pub fn every_list_keeps()
    ensures { EveryListKeeps }
{}

/// What crashes leave, and what opening makes of it.
pub fn crashes_leave()
    ensures { CrashesLeave }
{}

/// A snapshot and a merge can end, and an empty directory can be opened.
pub fn events_come()
    ensures { EventsCome }
{}
