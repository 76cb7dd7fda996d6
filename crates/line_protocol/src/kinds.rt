ghost use Rattle.std.specs.Prelude.{◌≡◌, ℕ, List, None, Some, OnOk};
ghost use Rattle.std.specs.Map.{update};
ghost use Rattle.std.specs.Str.{bytes_eq};
ghost use Rattle.tsdb_types.specs.Series.{measurement_ends_at};
ghost use Rattle.tsdb_types.specs.Spelled.{unescaped};
ghost use Rattle.line_protocol.specs.Fields.{fields_spelled};
ghost use Rattle.line_protocol.specs.Kinds.{seen_of, place_spelled, is_same, note, note_all};
ghost use Rattle.line_protocol.specs.Readings.{Gives};
ghost use Rattle.line_protocol.specs.Texts.{IsSpelling};

use crate::fault::{LineCode, Refusal};
use crate::place::Place;
use crate::spelled_field::SpelledField;
use std::alloc::{AllocError, AllocFailed, Global};
use std::collections::BTreeMap;
use tsdb_types::Kind;

// The kinds of the fields that lines had so far.
#[derive(Drop)]
pub struct Kinds<'a> {
    pub kinds: BTreeMap<Place<'a>, Kind>,
}

impl<'a> Kinds<'a> {
    pub fn new(alloc: Global) -> Kinds<'a>
        ensures { (place : List ℕ) → seen_of result place ≡ None }
    {
        Kinds {
            kinds: BTreeMap::new(alloc),
        }
    }

    // Notes the fields of a line, or refuses the first of another kind than before. The measurement is as the line spells it.
    pub fn note_all(
        &mut self,
        measurement: &'a [u8],
        fields: &[SpelledField<'a>],
    ) -> Result<(), Refusal>
        requires { IsSpelling measurement_ends_at measurement.now }
        ensures { Gives (λ _. seen_of self.new) result (note_all (seen_of self.old) (unescaped measurement_ends_at measurement.now) (fields_spelled fields.now)) }
    {
        for field in fields {
            let place = Place {
                key: field.key,
                measurement,
            };
            match self.note(&place, field.value.kind()) {
                Ok(()) => {}
                Err(refusal) => return Err(refusal),
            }
        }
        Ok(())
    }

    // Notes a kind at a place, or refuses another than before.
    fn note(&mut self, place: &Place<'a>, kind: Kind) -> Result<(), Refusal>
        ensures { Gives (λ _. seen_of self.new) result (note (seen_of self.old) (place_spelled place.now) kind) }
    {
        match self.kind_at(place) {
            None => {
                self.keep(place, kind)?;
                Ok(())
            }
            Some(before) => {
                if is_same(before, kind) {
                    return Ok(());
                }
                Err(Refusal::Code(LineCode::KindInBatch))
            }
        }
    }

    fn kind_at(&self, place: &Place<'a>) -> Option<Kind>
        ensures { result ≡ seen_of self.now (place_spelled place.now) }
    {
        self.kinds.get(place).copied()
    }

    // Notes a kind at a place where none stood.
    fn keep(&mut self, place: &Place<'a>, kind: Kind) -> Result<(), AllocError>
        requires { seen_of self.old (place_spelled place.now) ≡ None }
        ensures { OnOk result ((at : List ℕ) → seen_of self.new at ≡ update bytes_eq (seen_of self.old) (place_spelled place.now) (Some kind) at) }
    {
        self.kinds.insert(*place, kind)?;
        Ok(())
    }
}

fn is_same(kind: Kind, other: Kind) -> bool
    ensures { result ≡ is_same kind other }
{
    match kind {
        Kind::Integer => matches!(other, Kind::Integer),
        Kind::Unsigned => matches!(other, Kind::Unsigned),
        Kind::Boolean => matches!(other, Kind::Boolean),
    }
}
