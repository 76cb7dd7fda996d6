// Terms with their lists, in a hash table that keeps places.
ghost use Rattle.std.specs.Prelude.{◌≡◌, ◌∷◌, ◌++◌, [], ℕ, List, not, slice_get, Some, None, IfOk, OnOk, OnErr};
ghost use Rattle.indexmap.specs.IndexMap.{keys, values};
ghost use Rattle.index_lists.specs.Listing.{Listed, Puts, Takes, is_listed};
ghost use Rattle.index_lists.specs.Ready.{StandAt};
ghost use Rattle.index_lists.specs.Steps.{GivesRoom, Grows, HasIds, HaveRoom, KeepsIds, MakesRoom, StepsAt};
ghost use Rattle.index_lists.specs.Terms as terms;

use crate::Term;
use crate::id_list::IdList;
use crate::tags::{measurement_of, series_terms};
use indexmap::IndexMap;
use std::alloc::{AllocError, Global};
use tsdb_types::{Name, Seed, SeriesKey};

/// Lists of ids by their terms.
pub(crate) type TermMap = IndexMap<Term, IdList, Seed>;

/// The places of the terms of a series and a field, the field's first. Terms that have no place get one, with an empty list.
pub(crate) fn places_of(
    alloc: Global,
    map: &mut TermMap,
    series: &SeriesKey,
    field: &Name,
) -> Result<Vec<usize>, AllocError>
    ensures grows { Grows (keys map.old) (values map.old) (keys map.new) (values map.new) }
    ensures places { IfOk result (λ places. StandAt (keys map.new) (terms.terms_of series.now field.now) places.items) }
{
    let measurement = measurement_of(alloc, series)?;
    let first = place_of(
        alloc,
        map,
        Term::Field(measurement.carry()?, field.carry()?),
    )?;
    let mut places = Vec::new(alloc);
    places.push(first)?;
    add_places(
        alloc,
        map,
        series_terms(alloc, &measurement, series)?,
        &mut places,
    )?;
    Ok(places)
}

// Puts the places of these terms behind others.
fn add_places(
    alloc: Global,
    map: &mut TermMap,
    terms: Vec<Term>,
    places: &mut Vec<usize>,
) -> Result<(), AllocError>
    ensures grows { Grows (keys map.old) (values map.old) (keys map.new) (values map.new) }
    ensures places { OnOk result ((before : List Term) → StandAt (keys map.old) before places.old.items → StandAt (keys map.new) (before ++ terms.items) places.new.items) }
{
    for term in terms {
        let place = place_of(alloc, map, term)?;
        places.push(place)?;
    }
    Ok(())
}

// The place of a term; one that isn't there is added, with an empty list.
fn place_of(alloc: Global, map: &mut TermMap, term: Term) -> Result<usize, AllocError>
    ensures grows { Grows (keys map.old) (values map.old) (keys map.new) (values map.new) }
    ensures place { IfOk result (λ place. slice_get (keys map.new) place ≡ Some term) }
{
    match map.get_index_of(&term) {
        Some(place) => Ok(place),
        None => {
            let place = map.len();
            map.insert(term, IdList::new(alloc))?;
            Ok(place)
        }
    }
}

/// Makes room for one id more at each of these places.
pub(crate) fn make_rooms(map: &mut TermMap, places: &[usize]) -> Result<(), AllocError>
    ensures terms { keys map.new ≡ keys map.old }
    ensures ok { OnOk result (StepsAt MakesRoom places.now (values map.old) (values map.new)) }
    ensures err { OnErr result (KeepsIds (values map.old) (values map.new)) }
{
    for place in places {
        make_room(map, *place)?;
    }
    Ok(())
}

fn make_room(map: &mut TermMap, place: usize) -> Result<(), AllocError>
    ensures terms { keys map.new ≡ keys map.old }
    ensures ok { OnOk result (StepsAt MakesRoom (place ∷ []) (values map.old) (values map.new)) }
    ensures err { OnErr result (values map.new ≡ values map.old) }
{
    match map.get_index_mut(place) {
        Some(list) => list.make_room(),
        None => Ok(()),
    }
}

/// Gives the room for one id at each of these places back.
pub(crate) fn give_rooms(map: &mut TermMap, places: &[usize])
    ensures terms { keys map.new ≡ keys map.old }
    ensures gives { StepsAt GivesRoom places.now (values map.old) (values map.new) }
{
    for place in places {
        give_room(map, *place);
    }
}

/// Gives the room for one id at a place back.
pub(crate) fn give_room(map: &mut TermMap, place: usize)
    ensures terms { keys map.new ≡ keys map.old }
    ensures gives { StepsAt GivesRoom (place ∷ []) (values map.old) (values map.new) }
{
    match map.get_index_mut(place) {
        Some(list) => list.give_room(),
        None => (),
    }
}

/// Puts an id into the lists at these places.
pub(crate) fn put_all(map: &mut TermMap, places: &[usize], id: u32)
    requires { HaveRoom places.now (values map.old) }
    ensures terms { keys map.new ≡ keys map.old }
    ensures puts { StepsAt (Puts id) places.now (values map.old) (values map.new) }
{
    for place in places {
        put_at(map, *place, id);
    }
}

/// Puts an id into the list at a place. Answers whether it is new there.
pub(crate) fn put_at(map: &mut TermMap, place: usize, id: u32) -> bool
    requires { HaveRoom (place ∷ []) (values map.old) }
    ensures terms { keys map.new ≡ keys map.old }
    ensures puts { StepsAt (Puts id) (place ∷ []) (values map.old) (values map.new) }
    ensures fresh { (listed : Listed) → slice_get (values map.old) place ≡ Some listed → result ≡ not (is_listed listed.ids id) }
{
    match map.get_index_mut(place) {
        Some(list) => list.put(id),
        None => false,
    }
}

/// Takes an id out of the lists at these places.
pub(crate) fn take_all(map: &mut TermMap, places: &[usize], id: u32)
    ensures terms { keys map.new ≡ keys map.old }
    ensures takes { StepsAt (Takes id) places.now (values map.old) (values map.new) }
{
    for place in places {
        take_at(map, *place, id);
    }
}

/// Takes an id out of the list at a place. Answers whether it was there.
pub(crate) fn take_at(map: &mut TermMap, place: usize, id: u32) -> bool
    ensures terms { keys map.new ≡ keys map.old }
    ensures takes { StepsAt (Takes id) (place ∷ []) (values map.old) (values map.new) }
    ensures was { (listed : Listed) → slice_get (values map.old) place ≡ Some listed → result ≡ is_listed listed.ids id }
{
    match map.get_index_mut(place) {
        Some(list) => list.take(id),
        None => false,
    }
}

/// The ids of a term, none where it has no place.
pub(crate) fn ids_at<'a>(map: &'a TermMap, term: &Term) -> &'a [u32]
    ensures { HasIds (keys map.now) (values map.now) term.now result.now }
{
    match map.get(term) {
        Some(list) => list.as_slice(),
        None => &[],
    }
}
