ghost use Rattle.std.specs.Prelude.{◌≡◌, ◌+◌, ◌-◌, ◌<◌, ◌≤◌, ◌^◌, ℕ, length, slice_index_or, set, OnOk};

use crate::names::names_of;
use crate::places::{
    TermMap, give_room, give_rooms, ids_at, make_rooms, places_of, put_all, put_at, take_all,
    take_at,
};
use crate::{Heading, IndexChange, Staged, Term};
use indexmap::IndexMap;
use std::alloc::{AllocError, Global};
use std::marker::Model;
use tsdb_types::{Name, Seed};

/// The ids of series by what they have. A contract sees the terms with their lists, and `Holds` says of which pairs of a series and a
/// field these are the lists.
#[derive(Drop)]
pub struct Lists {
    alloc: Global,
    map: TermMap,
    // In how many fields a series has points, by its id.
    counts: Vec<usize>,
    pairs: usize,
    // For how many changes room is made.
    room: usize,
}

impl Model for Lists {
    ghost use Rattle.std.specs.Prelude.{◌+◌, ◌<◌, ◌^◌};
    ghost use Rattle.indexmap.specs.IndexMap.{keys, values};
    ghost use Rattle.index_lists.specs.Listing.{Listing};

    ghost Value = { Listing };

    ghost view = { λ l. record { terms = keys l.map; lists = values l.map; counts = l.counts.items; pairs = l.pairs; room = l.room } };

    ghost invariant = { λ l. l.pairs + l.room < 2 ^ 64 };
}

impl Lists {
    ghost use Rattle.std.specs.Prelude.{◌≡◌, ◌+◌, ◌<◌, ◌≤◌, ◌^◌, ◌∷◌, ◌++◌, [], ℕ, true, List, length, slice_index_or, IfOk, OnErr};
    ghost use Rattle.index_lists.specs.Listing.{AreIdsOf, Holds};
    ghost use Rattle.index_lists.specs.Names.{AreNamesOf};
    ghost use Rattle.index_lists.specs.Making.{Adds, Forgets, IsThere, Removes};
    ghost use Rattle.index_lists.specs.Steps.{HaveRoom};
    ghost use Rattle.index_lists.specs.Pairs.{Pair, Suits, after};
    ghost use Rattle.index_lists.specs.Ready.{AreReady, Prepared};
    ghost use Rattle.index_lists.specs.Terms.{is_of};

    /// No pairs. The seed of the hashes is one that clients don't know: they choose the names.
    pub fn new(alloc: Global, seed: Seed) -> Lists
        ensures holds { Holds [] result }
        ensures ready { AreReady result [] }
    {
        Lists {
            alloc,
            map: IndexMap::with_hasher(alloc, seed),
            counts: Vec::new(alloc),
            pairs: 0,
            room: 0,
        }
    }

    /// How many pairs there are.
    pub fn pairs(&self) -> usize
        ensures { result ≡ self.now.pairs }
    {
        self.pairs
    }

    /// The ids of the series that a term lists, ascending.
    pub fn ids(&self, term: &Term) -> &[u32]
        ensures { (pairs : List Pair) → Holds pairs self.now → AreIdsOf (is_of term.now) pairs result.now }
    {
        ids_at(&self.map, term)
    }

    /// The names under a heading that some series has, each once and ascending by their bytes.
    pub fn names(&self, heading: &Heading) -> Result<Vec<Name>, AllocError>
        ensures { IfOk result (λ names. (pairs : List Pair) → Holds pairs self.now → AreNamesOf heading.now pairs names.items) }
    {
        let mut names = names_of(self.alloc, &self.map, heading)?;
        names.sort_unstable();
        names.dedup();
        Ok(names)
    }

    /// Makes a change ready: what takes memory of making it. The pairs stay, and so do other changes that are ready.
    pub fn stage(&mut self, change: IndexChange) -> Result<Staged, AllocError>
        ensures change { IfOk result (λ staged. staged.change ≡ change) }
        ensures ready { IfOk result (λ staged. (prepared : List Prepared) → AreReady self.old prepared → AreReady self.new (prepared ++ staged ∷ [])) }
        ensures err { OnErr result ((prepared : List Prepared) → AreReady self.old prepared → AreReady self.new prepared) }
        ensures holds { (pairs : List Pair) → Holds pairs self.old → Holds pairs self.new }
    {
        let _ = change.series.text();
        let _ = self.map.len();
        if self.room >= usize::MAX - self.pairs {
            return Err(AllocError);
        }
        count_to(&mut self.counts, change.id)?;
        let places = places_of(self.alloc, &mut self.map, &change.series, &change.field)?;
        make_rooms(&mut self.map, &places)?;
        self.room += 1;
        Ok(Staged { change, places })
    }

    /// Makes the first of the changes that are ready, and gives it back. Takes no memory.
    pub fn commit(&mut self, staged: Staged) -> IndexChange
        requires ready { (prepared : List Prepared) × AreReady self.old (staged ∷ prepared) }
        requires holds { (pairs : List Pair) × Holds pairs self.old × Suits pairs staged.change }
        ensures change { result ≡ staged.change }
        ensures ready { (prepared : List Prepared) → AreReady self.old (staged ∷ prepared) → AreReady self.new prepared }
        ensures holds { (pairs : List Pair) → Holds pairs self.old → Suits pairs staged.change → Holds (after staged.change pairs) self.new }
    {
        let _ = self.map.len();
        let Staged { change, places } = staged;
        self.room -= 1;
        if change.add {
            self.add(change.id, &places);
            return change;
        }
        self.remove(change.id, &places);
        change
    }

    /// Forgets the first of the changes that are ready. Takes no memory.
    pub fn unstage(&mut self, staged: Staged)
        ensures ready { (prepared : List Prepared) → AreReady self.old (staged ∷ prepared) → AreReady self.new prepared }
        ensures holds { (pairs : List Pair) → Holds pairs self.old → Holds pairs self.new }
    {
        give_rooms(&mut self.map, &staged.places);
        self.room = self.room.saturating_sub(1);
    }

    // Puts an id into the lists at these places, the first of which is the field's.
    fn add(&mut self, id: u32, places: &[usize])
        requires counted { id < length self.old.counts }
        requires few { slice_index_or self.old.counts id 0 + 1 < 2 ^ 64 }
        requires room { self.old.pairs + 1 + self.old.room < 2 ^ 64 }
        requires places { HaveRoom places.now self.old.lists }
        ensures { Adds id places.now self.old self.new }
    {
        match places.split_first() {
            None => (),
            Some((first, others)) => self.add_at(id, *first, others),
        }
    }

    fn add_at(&mut self, id: u32, first: usize, others: &[usize])
        requires counted { id < length self.old.counts }
        requires few { slice_index_or self.old.counts id 0 + 1 < 2 ^ 64 }
        requires room { self.old.pairs + 1 + self.old.room < 2 ^ 64 }
        requires places { HaveRoom (first ∷ others.now) self.old.lists }
        ensures { Adds id (first ∷ others.now) self.old self.new }
    {
        let fresh = put_at(&mut self.map, first, id);
        put_all(&mut self.map, others, id);
        if fresh {
            count_more(&mut self.counts, id);
            self.pairs += 1;
        }
    }

    // Takes an id out of the list at the first of these places, which is the field's, and out of the others where it has no other field.
    fn remove(&mut self, id: u32, places: &[usize])
        requires counted { id < length self.old.counts }
        requires some { IsThere id places.now self.old.lists true → (0 < slice_index_or self.old.counts id 0) × (0 < self.old.pairs) }
        ensures { Removes id places.now self.old self.new }
    {
        match places.split_first() {
            None => (),
            Some((first, others)) => self.remove_at(id, *first, others),
        }
    }

    fn remove_at(&mut self, id: u32, first: usize, others: &[usize])
        requires counted { id < length self.old.counts }
        requires some { IsThere id (first ∷ others.now) self.old.lists true → (0 < slice_index_or self.old.counts id 0) × (0 < self.old.pairs) }
        ensures { Removes id (first ∷ others.now) self.old self.new }
    {
        let was = take_at(&mut self.map, first, id);
        give_room(&mut self.map, first);
        give_rooms(&mut self.map, others);
        if was {
            self.forget(id, others);
        }
    }

    // Counts one field less, and takes the id out of the lists at these places where none is left.
    fn forget(&mut self, id: u32, places: &[usize])
        requires counted { id < length self.old.counts }
        requires some { (0 < slice_index_or self.old.counts id 0) × (0 < self.old.pairs) }
        ensures { Forgets id places.now self.old self.new }
    {
        let left = count_less(&mut self.counts, id);
        self.pairs -= 1;
        if left == 0 {
            take_all(&mut self.map, places, id);
        }
    }
}

// Counts one field more of a series.
fn count_more(counts: &mut Vec<usize>, id: u32)
    requires counted { id < length counts.old.items }
    requires few { slice_index_or counts.old.items id 0 + 1 < 2 ^ 64 }
    ensures { counts.new.items ≡ set counts.old.items id (slice_index_or counts.old.items id 0 + 1) }
{
    let place = id as usize;
    let count = counts[place];
    counts[place] = count + 1;
}

// Counts one field less of a series, and tells how many are left.
fn count_less(counts: &mut Vec<usize>, id: u32) -> usize
    requires counted { id < length counts.old.items }
    requires some { 0 < slice_index_or counts.old.items id 0 }
    ensures counts { counts.new.items ≡ set counts.old.items id (slice_index_or counts.old.items id 0 - 1) }
    ensures left { result + 1 ≡ slice_index_or counts.old.items id 0 }
{
    let place = id as usize;
    let left = counts[place] - 1;
    counts[place] = left;
    left
}

// Makes the counts reach as far as an id.
fn count_to(counts: &mut Vec<usize>, id: u32) -> Result<(), AllocError>
    ensures ok { OnOk result (id < length counts.new.items) }
    ensures long { length counts.old.items ≤ length counts.new.items }
    ensures same { (other : ℕ) → slice_index_or counts.new.items other 0 ≡ slice_index_or counts.old.items other 0 }
{
    let place = id as usize;
    if counts.len() <= place {
        counts.resize(place + 1, 0)?;
    }
    Ok(())
}
