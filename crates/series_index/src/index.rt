use crate::among::is_among;
use crate::matching::matching_ids;
use crate::staging::{commit_all, drop_front, stage_all, unstage_to};
use index_lists::{Heading, IndexChange, Lists, Staged, Term, measurement_of};
use point_model::TagCond;
use std::alloc::{AllocError, Global};
use std::marker::Model;
use std::mem;
use tsdb_types::{Name, Seed, SeriesKey};

/// Which series have points in which fields, by lists of ids. A contract sees the lists, the changes that are staged, and those that were
/// made and wait for the log; `HasContent` says which pairs of a series and a field an index holds.
///
/// A write or a deletion goes so: `stage` its changes while it may still be refused; once it stands, `commit` them, which takes no memory,
/// or `unstage` them. A committed change is kept in `pending`, in order, until the log of the index has it.
#[derive(Drop)]
pub struct SeriesIndex {
    alloc: Global,
    lists: Lists,
    staged: Vec<Staged>,
    pending: Vec<IndexChange>,
}

impl Model for SeriesIndex {
    ghost use Rattle.std.specs.Prelude.{length, vec_capacity};
    ghost use Rattle.series_index.specs.Index.{Index, IsKept, changes_of};

    ghost Value = { Index };

    ghost view = { λ i. record { lists = i.lists; staged = changes_of i.staged.items; pending = i.pending.items } };

    ghost invariant = { λ i. IsKept i.lists i.staged.items (length i.pending.items) (vec_capacity i.pending) };
}

impl SeriesIndex {
    ghost use Rattle.std.specs.Prelude.{◌≡◌, ◌≤◌, ◌↔◌, ◌++◌, [], List, Contains, drop, length, IsTrue, IfOk, OnOk, OnErr};
    ghost use Rattle.index_lists.specs.Listing.{AreIdsOf};
    ghost use Rattle.index_lists.specs.Names.{AreNamesOf};
    ghost use Rattle.index_lists.specs.Pairs.{Agrees, MayChange, Pair, after_all};
    ghost use Rattle.index_lists.specs.Terms.{is_of};
    ghost use Rattle.series_index.specs.Index.{HasContent, is_match};
    ghost use Rattle.series_index.specs.Staging.{changing};

    /// An index without a pair. The seed of the hashes is one that clients don't know: they choose the names.
    pub fn new(alloc: Global, seed: Seed) -> SeriesIndex
        ensures content { HasContent [] result }
        ensures staged { result.staged ≡ [] }
        ensures pending { result.pending ≡ [] }
    {
        SeriesIndex {
            alloc,
            lists: Lists::new(alloc, seed),
            staged: Vec::new(alloc),
            pending: Vec::new(alloc),
        }
    }

    /// Makes changes ready behind those that are: all memory that making them takes, and keeping them for the log. Changes no content.
    ///
    /// A record of the log gives two bytes to the length of a field, so that a field of 65,536 bytes or more would fit none. That isn't asked
    /// here, where nothing is logged: who stages sees to it.
    pub fn stage(&mut self, changes: Vec<IndexChange>) -> Result<(), AllocError>
        ensures ok { OnOk result (self.new.staged ≡ self.old.staged ++ changes.items) }
        ensures err { OnErr result (self.new.staged ≡ self.old.staged) }
        ensures pending { self.new.pending ≡ self.old.pending }
        ensures content { (pairs : List Pair) → HasContent pairs self.old → HasContent pairs self.new }
    {
        let had = self.staged.len();
        let Some(staged) = had.checked_add(changes.len()) else {
            return Err(AllocError);
        };
        self.pending.reserve(staged)?;
        match stage_all(&mut self.lists, changes, &mut self.staged) {
            Ok(()) => Ok(()),
            Err(error) => {
                unstage_to(&mut self.lists, had, &mut self.staged);
                Err(error)
            }
        }
    }

    /// Makes the changes that are staged, in their order. Those that change the content are pending then: adding a pair that is there, or removing
    /// one that isn't, leaves nothing for the log. Takes no memory.
    pub fn commit(&mut self)
        requires { (pairs : List Pair) × HasContent pairs self.old × MayChange pairs self.old.staged }
        ensures content { (pairs : List Pair) → HasContent pairs self.old → MayChange pairs self.old.staged → HasContent (after_all self.old.staged pairs) self.new }
        ensures staged { self.new.staged ≡ [] }
        ensures pending { (pairs : List Pair) → HasContent pairs self.old → MayChange pairs self.old.staged → self.new.pending ≡ self.old.pending ++ changing self.old.staged pairs }
    {
        let staged = mem::replace(&mut self.staged, Vec::new(self.alloc));
        commit_all(&mut self.lists, staged, &mut self.pending);
    }

    /// Forgets the changes that are staged. Takes no memory.
    pub fn unstage(&mut self)
        ensures staged { self.new.staged ≡ [] }
        ensures pending { self.new.pending ≡ self.old.pending }
        ensures content { (pairs : List Pair) → HasContent pairs self.old → HasContent pairs self.new }
    {
        unstage_to(&mut self.lists, 0, &mut self.staged);
    }

    /// How many pairs there are.
    pub fn pairs(&self) -> usize
        ensures lists { result ≡ self.now.lists.pairs }
        ensures content { (pairs : List Pair) → HasContent pairs self.now → result ≡ length pairs }
    {
        self.lists.pairs()
    }

    /// The changes that were made and that the log of the index hasn't yet, in their order.
    pub fn pending(&self) -> &[IndexChange]
        ensures { result.now ≡ self.now.pending }
    {
        &self.pending
    }

    /// Takes the first of the pending changes away: a log has them now. Takes no memory.
    pub fn stored(&mut self, count: usize)
        requires { count ≤ length self.old.pending }
        ensures { self.new ≡ record self.old { pending = drop count self.old.pending } }
    {
        drop_front(&mut self.pending, count);
    }

    /// Whether a series has points in a field. The id is that of this series alone.
    pub fn has(&self, id: u32, series: &SeriesKey, field: &Name) -> Result<bool, AllocError>
        ensures { IfOk result (λ there. (pairs : List Pair) → HasContent pairs self.now → Agrees pairs (record { id = id; series = series.now; field = field.now })
            → IsTrue there ↔ Contains pairs (record { id = id; series = series.now; field = field.now })) }
    {
        let measurement = measurement_of(self.alloc, series)?;
        let term = Term::Field(measurement, field.carry()?);
        Ok(is_among(id, self.lists.ids(&term)))
    }

    /// The ids of the series of a measurement whose tags meet a condition, ascending; a tag that a series lacks has the empty text.
    pub fn ids_of(&self, measurement: &Name, tags: &TagCond) -> Result<Vec<u32>, AllocError>
        ensures { IfOk result (λ ids. (pairs : List Pair) → HasContent pairs self.now → AreIdsOf (is_match measurement.now tags.now) pairs ids.items) }
    {
        matching_ids(self.alloc, &self.lists, measurement, tags)
    }

    /// The ids of the series that a term lists, ascending. With the names under each heading they are what the file of an index has.
    pub fn ids(&self, term: &Term) -> &[u32]
        ensures { (pairs : List Pair) → HasContent pairs self.now → AreIdsOf (is_of term.now) pairs result.now }
    {
        self.lists.ids(term)
    }

    /// The names under a heading that some series has, each once and ascending by their bytes: the measurements; the fields or the keys of
    /// the tags in one; the values of a tag in one.
    pub fn names(&self, heading: &Heading) -> Result<Vec<Name>, AllocError>
        ensures { IfOk result (λ names. (pairs : List Pair) → HasContent pairs self.now → AreNamesOf heading.now pairs names.items) }
    {
        self.lists.names(heading)
    }
}
