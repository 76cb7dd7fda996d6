use std::marker::Model;
use tsdb_types::SeriesKey;

// A head that stood in a line of the batch, and what it names.
#[derive(Drop)]
pub struct Known<'a> {
    pub head: &'a [u8],
    pub measurement: &'a [u8],
    pub series: SeriesKey,
    // A tag is named `time`.
    pub reserved: bool,
    // A mark cuts the keys of the series.
    pub marked: bool,
    // Where the columns of its first line may stand, one behind another.
    pub first: u32,
}

impl<'a> Model for Known<'a> {
    ghost use Rattle.line_protocol.specs.Known.{KnownHead, IsKnown};

    ghost Value = { KnownHead };

    ghost view = { λ k. record { head = k.head.now; measurement = k.measurement.now; series = k.series; reserved = k.reserved; marked = k.marked } };

    ghost invariant = { λ k. IsKnown (record { head = k.head.now; measurement = k.measurement.now; series = k.series; reserved = k.reserved; marked = k.marked }) };
}
