// Which names are asked for, and the name that a term has there.
ghost use Rattle.std.specs.Prelude.{◌≡◌, option_copied};
ghost use Rattle.index_lists.specs.Names as names;

use crate::Term;
use tsdb_types::Name;

/// Which names are asked for.
#[derive(Debug, Drop)]
pub enum Heading {
    /// The measurements.
    Measurements,
    /// The fields of a measurement.
    Fields(Name),
    /// The keys of the tags in a measurement.
    TagKeys(Name),
    /// The values that the tags with a key have in a measurement.
    TagValues(Name, Name),
}

/// The name that a term has under a heading; none where it isn't listed there.
pub(crate) fn name_under<'a>(heading: &Heading, term: &'a Term) -> Option<&'a Name>
    ensures { option_copied result ≡ names.name_under heading.now term.now }
{
    match heading {
        Heading::Measurements => measurement_in(term),
        Heading::Fields(measurement) => field_in(measurement, term),
        Heading::TagKeys(measurement) => tag_key_in(measurement, term),
        Heading::TagValues(measurement, key) => tag_value_in(measurement, key, term),
    }
}

fn measurement_in(term: &Term) -> Option<&Name>
    ensures { option_copied result ≡ names.measurement_in term.now }
{
    match term {
        Term::Measurement(name) => Some(name),
        Term::Field(_, _) => None,
        Term::TagKey(_, _) => None,
        Term::TagValue(_, _, _) => None,
    }
}

fn field_in<'a>(measurement: &Name, term: &'a Term) -> Option<&'a Name>
    ensures { option_copied result ≡ names.field_in measurement.now term.now }
{
    match term {
        Term::Measurement(_) => None,
        Term::Field(of, name) => {
            if of == measurement {
                return Some(name);
            }
            None
        }
        Term::TagKey(_, _) => None,
        Term::TagValue(_, _, _) => None,
    }
}

fn tag_key_in<'a>(measurement: &Name, term: &'a Term) -> Option<&'a Name>
    ensures { option_copied result ≡ names.tag_key_in measurement.now term.now }
{
    match term {
        Term::Measurement(_) => None,
        Term::Field(_, _) => None,
        Term::TagKey(of, name) => {
            if of == measurement {
                return Some(name);
            }
            None
        }
        Term::TagValue(_, _, _) => None,
    }
}

fn tag_value_in<'a>(measurement: &Name, key: &Name, term: &'a Term) -> Option<&'a Name>
    ensures { option_copied result ≡ names.tag_value_in measurement.now key.now term.now }
{
    match term {
        Term::Measurement(_) => None,
        Term::Field(_, _) => None,
        Term::TagKey(_, _) => None,
        Term::TagValue(of, its, name) => {
            if of == measurement && its == key {
                return Some(name);
            }
            None
        }
    }
}
