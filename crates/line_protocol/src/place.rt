ghost use Rattle.std.proofs.Props.{props};
ghost use Rattle.tsdb_types.specs.Series.{measurement_ends_at, tag_ends_at};
ghost use Rattle.line_protocol.specs.Texts.{IsSpelling};

// A field of a measurement, by its key and the measurement as lines spell them. A name has one spelling, so places are equal
// exactly where the names are.
#[derive(Clone, Copy, PartialEq, Eq, PartialOrd, Ord)]
pub struct Place<'a> {
    pub key: &'a [u8],
    pub measurement: &'a [u8],
    ghost key_spelling: { IsSpelling tag_ends_at key.now } by { Prim.hlevel props },
    ghost measurement_spelling: { IsSpelling measurement_ends_at measurement.now } by { Prim.hlevel props },
}
