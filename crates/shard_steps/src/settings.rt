ghost use Rattle.std.specs.Prelude.{◌≡◌, ◌≤◌};

/// The limits of an engine.
#[derive(Clone, Copy, Debug)]
pub struct Settings {
    /// The most points in memory, from 1 to 65,535,000.
    pub cache_points: u64,
    /// The most series, from 1 to 10,000,000.
    pub series: u64,
    /// The most views that are out, from 1 to 1,024.
    pub views: u32,
    ghost some_points: { 1 ≤ cache_points },
    ghost few_points: { cache_points ≤ 65535000 },
    ghost some_series: { 1 ≤ series },
    ghost few_series: { series ≤ 10000000 },
    ghost some_views: { 1 ≤ views },
    ghost few_views: { views ≤ 1024 },
}

impl Settings {
    /// What the program runs with.
    pub fn usual() -> Settings
        ensures cache_points { result.cache_points ≡ 16000000 }
        ensures series { result.series ≡ 10000000 }
        ensures views { result.views ≡ 1024 }
    {
        Settings {
            cache_points: 16_000_000,
            series: 10_000_000,
            views: 1_024,
        }
    }
}
