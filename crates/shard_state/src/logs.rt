ghost use Rattle.std.specs.Prelude.{◌≡◌};

use manifest_log::Manifest;
use series_store::Series;
use std::alloc::Global;
use wal_store::Wal;

/// The logs of an engine and the disk that they stand on. They hold no point in memory.
pub struct Logs<D> {
    pub(crate) alloc: Global,
    pub(crate) disk: D,
    pub(crate) manifest: Manifest,
    pub(crate) series: Series,
    pub(crate) wal: Wal,
    pub(crate) number: u64,
}

impl<D> Logs<D> {
    /// The logs that were read from a disk, or made on it, with the number of the last entry.
    pub fn new(
        alloc: Global,
        disk: D,
        manifest: Manifest,
        series: Series,
        wal: Wal,
        number: u64,
    ) -> Logs<D>
        ensures { result ≡ record { alloc = alloc; disk = disk; manifest = manifest; series = series; wal = wal; number = number } }
    {
        Logs {
            alloc,
            disk,
            manifest,
            series,
            wal,
            number,
        }
    }

    /// The number of the last entry, or 0 where there is none.
    pub fn number(&self) -> u64
        ensures { result ≡ self.now.number }
    {
        self.number
    }

    /// The series that are held, by which it is told which of a batch are new.
    pub fn series(&self) -> &Series
        ensures { result.now ≡ self.now.series }
    {
        &self.series
    }
}
