ghost use Rattle.std.proofs.Props.{props};
ghost use Rattle.tsdb_types.specs.Series.{tag_ends_at};
ghost use Rattle.line_protocol.specs.Texts.{IsSpelling};

use tsdb_types::Value;

// A field as its line spells it.
#[derive(Clone, Copy)]
pub struct SpelledField<'a> {
    pub key: &'a [u8],
    pub value: Value,
    ghost spelling: { IsSpelling tag_ends_at key.now } by { Prim.hlevel props },
}

impl<'a> SpelledField<'a> {
    ghost use Rattle.std.specs.Prelude.{◌≡◌, IfOk};
    ghost use Rattle.std.specs.Str.{bytes_eq};
    ghost use Rattle.line_protocol.specs.Fields.{field_spelled};
    ghost use Rattle.line_protocol.specs.Heads.{time_word};

    pub fn is_time(&self) -> bool
        ensures { result ≡ bytes_eq (field_spelled self.now).name time_word }
    {
        self.key == b"time".as_slice()
    }
}
