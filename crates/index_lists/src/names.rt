// The names under a heading whose terms list some series.
ghost use Rattle.std.specs.Prelude.{◌≡◌, ◌++◌, slice_get, IfOk, OnOk};
ghost use Rattle.index_lists.specs.Names.{names_at, names_in};

use crate::Heading;
use crate::heading::name_under;
use crate::places::TermMap;
use std::alloc::{AllocError, Global};
use tsdb_types::Name;

/// The names under a heading, in the order of places.
pub(crate) fn names_of(
    alloc: Global,
    map: &TermMap,
    heading: &Heading,
) -> Result<Vec<Name>, AllocError>
    ensures { IfOk result (λ names. names.items ≡ names_in heading.now map.now.entries) }
{
    let mut names = Vec::new(alloc);
    for place in 0..map.len() {
        add_name(map, heading, place, &mut names)?;
    }
    Ok(names)
}

// Puts the name of the term at a place behind others, where it is under the heading and lists a series.
fn add_name(
    map: &TermMap,
    heading: &Heading,
    place: usize,
    names: &mut Vec<Name>,
) -> Result<(), AllocError>
    ensures { OnOk result (names.new.items ≡ names.old.items ++ names_at heading.now (slice_get map.now.entries place)) }
{
    let Some((term, list)) = map.get_index(place) else {
        return Ok(());
    };
    if list.as_slice().is_empty() {
        return Ok(());
    }
    let Some(name) = name_under(heading, term) else {
        return Ok(());
    };
    names.push(name.carry()?)?;
    Ok(())
}
