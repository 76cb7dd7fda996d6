// Ids of series in ascending order.
ghost use Rattle.std.specs.Prelude.{◌≡◌, true, false, IfSome, IfNone};
ghost use Rattle.std.specs.List.Sorted.{IsStrictlySortedBy};
ghost use Rattle.std.specs.Ordering.{nat_cmp};
ghost use Rattle.index_lists.specs.Listing.{is_listed};
ghost use Rattle.index_lists.specs.Searching.{IsPlaceFor};

use std::alloc::{AllocError, Global};
use std::marker::Model;

/// Ids that ascend, and room for some more. A contract sees the ids, and how much room is made.
#[derive(Debug, Drop)]
pub struct IdList {
    ids: Vec<u32>,
    room: usize,
}

impl Model for IdList {
    ghost use Rattle.std.specs.Prelude.{◌+◌, ◌≤◌, length, vec_capacity};
    ghost use Rattle.std.specs.List.Sorted.{IsStrictlySortedBy};
    ghost use Rattle.std.specs.Ordering.{nat_cmp};
    ghost use Rattle.index_lists.specs.Listing.{Listed};

    ghost Value = { Listed };

    ghost view = { λ l. record { ids = l.ids.items; room = l.room } };

    ghost invariant = { λ l. IsStrictlySortedBy nat_cmp l.ids.items × (length l.ids.items + l.room ≤ vec_capacity l.ids) };
}

impl IdList {
    ghost use Rattle.std.specs.Prelude.{◌≡◌, ◌+◌, ◌-◌, ◌<◌, [], not, OnOk, OnErr};
    ghost use Rattle.std.specs.List.Sorted.{IsStrictlySortedBy};
    ghost use Rattle.std.specs.Ordering.{nat_cmp};
    ghost use Rattle.index_lists.specs.Listing.{Puts, Takes, is_listed};

    /// No ids, and no room.
    pub(crate) fn new(alloc: Global) -> IdList
        ensures { result ≡ record { ids = []; room = 0 } }
    {
        IdList {
            ids: Vec::new(alloc),
            room: 0,
        }
    }

    /// The ids.
    pub(crate) fn as_slice(&self) -> &[u32]
        ensures ids { result.now ≡ self.now.ids }
        ensures ascending { IsStrictlySortedBy nat_cmp result.now }
    {
        &self.ids
    }

    /// Makes the room for one id more.
    pub(crate) fn make_room(&mut self) -> Result<(), AllocError>
        ensures ok { OnOk result (self.new ≡ record self.old { room = self.old.room + 1 }) }
        ensures err { OnErr result (self.new ≡ self.old) }
    {
        let Some(room) = self.room.checked_add(1) else {
            return Err(AllocError);
        };
        self.ids.reserve(room)?;
        self.room = room;
        Ok(())
    }

    /// Gives room for one id back.
    pub(crate) fn give_room(&mut self)
        ensures { self.new ≡ record self.old { room = self.old.room - 1 } }
    {
        self.room = self.room.saturating_sub(1);
    }

    /// Puts an id among them, for which there is room. Answers whether it is new.
    pub(crate) fn put(&mut self, id: u32) -> bool
        requires { 0 < self.old.room }
        ensures puts { Puts id self.old self.new }
        ensures fresh { result ≡ not (is_listed self.old.ids id) }
    {
        self.room -= 1;
        match place_for(&self.ids, id) {
            Some(place) => {
                let _ = self.ids.insert(place, id);
                true
            }
            None => false,
        }
    }

    /// Takes an id away. Answers whether it was there.
    pub(crate) fn take(&mut self, id: u32) -> bool
        ensures takes { Takes id self.old self.new }
        ensures was { result ≡ is_listed self.old.ids id }
    {
        match self.ids.binary_search(&id) {
            Ok(place) => {
                self.ids.remove(place);
                true
            }
            Err(_) => false,
        }
    }
}

// Where an id is put among ascending ones; none where it is there.
fn place_for(ids: &[u32], id: u32) -> Option<usize>
    requires { IsStrictlySortedBy nat_cmp ids.now }
    ensures found { IfSome result (λ place. IsPlaceFor id place ids.now) }
    ensures lacks { IfSome result (λ _. is_listed ids.now id ≡ false) }
    ensures none { IfNone result (is_listed ids.now id ≡ true) }
{
    if let Some(last) = ids.last() {
        if *last < id {
            return Some(ids.len());
        }
    }
    match ids.binary_search(&id) {
        Ok(_) => None,
        Err(place) => Some(place),
    }
}
