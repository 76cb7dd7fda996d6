use crate::{Facts, Settings};
use live_points::LivePoints;
use shard_state::Logs;
use std::alloc::Global;
use tsdb_types::Seed;

/// An engine over a directory: its logs, its points in memory, and how many views of them are out.
pub struct Shard<D> {
    pub(crate) alloc: Global,
    pub(crate) seed: Seed,
    pub(crate) logs: Logs<D>,
    pub(crate) live: LivePoints,
    pub(crate) settings: Settings,
    pub(crate) views: u32,
}

impl<D> Shard<D> {
    ghost use Rattle.std.specs.Prelude.{◌≡◌, ◌≤◌, length};

    /// An engine over logs that were opened, with the points that their entries leave. No view is out. The seed is one that clients
    /// don't know: they choose the series.
    pub fn new(
        alloc: Global,
        seed: Seed,
        logs: Logs<D>,
        live: LivePoints,
        settings: Settings,
    ) -> Shard<D>
        ensures { result ≡ record { alloc = alloc; seed = seed; logs = logs; live = live; settings = settings; views = 0 } }
    {
        Shard {
            alloc,
            seed,
            logs,
            live,
            settings,
            views: 0,
        }
    }

    /// The logs, for `shard_state::close`. The points in memory are gone.
    pub fn into_logs(self) -> Logs<D>
        ensures { result ≡ self.logs }
    {
        let Shard {
            alloc: _,
            seed: _,
            logs,
            live: _live,
            settings: _,
            views: _,
        } = self;
        logs
    }

    /// The number of the last entry.
    pub fn number(&self) -> u64
        ensures { result ≡ self.now.logs.number }
    {
        self.logs.number()
    }

    pub fn settings(&self) -> Settings
        ensures { result ≡ self.now.settings }
    {
        self.settings
    }

    /// How many points and series it holds. There are at most 10,000,000 series.
    pub fn facts(&self) -> Facts
        ensures few { result.series ≤ 10000000 }
        ensures are { result ≡ record { cached = length self.now.live.points; series = length self.now.logs.series.keys } }
    {
        Facts {
            cached: self.live.cells(),
            series: u64::from(self.logs.series().len()),
        }
    }
}
