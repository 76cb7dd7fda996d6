// Making changes ready, making them, and forgetting them, one by one.
ghost use Rattle.std.specs.Prelude.{◌≡◌, ◌+◌, ◌<◌, ◌≤◌, ◌∷◌, ◌++◌, [], List, drop, length, vec_len, vec_capacity, OnOk, OnErr};
ghost use Rattle.index_lists.specs.declared.change.IndexChange.{IndexChange};
ghost use Rattle.index_lists.specs.Listing.{Holds};
ghost use Rattle.index_lists.specs.Pairs.{MayChange, Pair, Suits, after, after_all};
ghost use Rattle.index_lists.specs.Ready.{AreReady, Prepared};
ghost use Rattle.series_index.specs.Index.{changes_of};
ghost use Rattle.series_index.specs.Staging.{Stages, Unstages, changing};

use index_lists::{IndexChange, Lists, Staged};
use std::alloc::AllocError;

/// Makes changes ready behind others; where memory is wanting, some of them.
pub fn stage_all(
    lists: &mut Lists,
    changes: Vec<IndexChange>,
    staged: &mut Vec<Staged>,
) -> Result<(), AllocError>
    ensures ok { OnOk result (Stages changes.items lists.old lists.new staged.old.items staged.new.items) }
    ensures err { OnErr result ((some : List IndexChange) × Stages some lists.old lists.new staged.old.items staged.new.items) }
{
    for change in changes {
        stage_one(lists, change, staged)?;
    }
    Ok(())
}

fn stage_one(
    lists: &mut Lists,
    change: IndexChange,
    staged: &mut Vec<Staged>,
) -> Result<(), AllocError>
    ensures ok { OnOk result (Stages (change ∷ []) lists.old lists.new staged.old.items staged.new.items) }
    ensures err { OnErr result (Stages [] lists.old lists.new staged.old.items staged.new.items) }
{
    staged.reserve(1)?;
    let one = lists.stage(change)?;
    push_within(staged, one);
    Ok(())
}

/// Forgets the changes that are ready behind the first ones, the last first.
pub fn unstage_to(lists: &mut Lists, count: usize, staged: &mut Vec<Staged>)
    ensures fewer { Unstages lists.old lists.new staged.old.items staged.new.items }
    ensures left { count ≤ length staged.old.items → length staged.new.items ≡ count }
{
    while staged.len() > count {
        unstage_last(lists, staged);
    }
}

fn unstage_last(lists: &mut Lists, staged: &mut Vec<Staged>)
    requires { 0 < length staged.old.items }
    ensures fewer { Unstages lists.old lists.new staged.old.items staged.new.items }
    ensures one { length staged.new.items + 1 ≡ length staged.old.items }
{
    match staged.pop() {
        Some(last) => lists.unstage(last),
        None => (),
    }
}

/// Makes the changes that are ready, in their order, and puts those that change the content behind those that are pending.
pub fn commit_all(lists: &mut Lists, staged: Vec<Staged>, pending: &mut Vec<IndexChange>)
    requires ready { AreReady lists.old staged.items }
    requires content { (pairs : List Pair) × Holds pairs lists.old × MayChange pairs (changes_of staged.items) }
    requires room { length pending.old.items + length staged.items ≤ vec_capacity pending.old }
    ensures content { (pairs : List Pair) → Holds pairs lists.old → MayChange pairs (changes_of staged.items) → Holds (after_all (changes_of staged.items) pairs) lists.new }
    ensures pending { (pairs : List Pair) → Holds pairs lists.old → MayChange pairs (changes_of staged.items) → pending.new.items ≡ pending.old.items ++ changing (changes_of staged.items) pairs }
    ensures capacity { vec_capacity pending.old ≤ vec_capacity pending.new }
{
    for one in staged {
        commit_one(lists, one, pending);
    }
}

// Makes the first of the changes that are ready. Whether it changes the content is told by how many pairs there are behind it.
fn commit_one(lists: &mut Lists, one: Staged, pending: &mut Vec<IndexChange>)
    requires ready { (prepared : List Prepared) × AreReady lists.old (one ∷ prepared) }
    requires content { (pairs : List Pair) × Holds pairs lists.old × Suits pairs one.change }
    requires room { vec_len pending.old < vec_capacity pending.old }
    ensures ready { (prepared : List Prepared) → AreReady lists.old (one ∷ prepared) → AreReady lists.new prepared }
    ensures content { (pairs : List Pair) → Holds pairs lists.old → Suits pairs one.change → Holds (after one.change pairs) lists.new }
    ensures pending { (pairs : List Pair) → Holds pairs lists.old → Suits pairs one.change → pending.new.items ≡ pending.old.items ++ changing (one.change ∷ []) pairs }
    ensures few { length pending.new.items ≤ length pending.old.items + 1 }
    ensures capacity { vec_capacity pending.old ≤ vec_capacity pending.new }
{
    let had = lists.pairs();
    let change = lists.commit(one);
    if lists.pairs() != had {
        push_within(pending, change);
    }
}

// Puts an item behind the others of a list that has room for it.
fn push_within<T: Drop>(items: &mut Vec<T>, item: T)
    requires { vec_len items.old < vec_capacity items.old }
    ensures items { items.new.items ≡ items.old.items ++ item ∷ [] }
    ensures capacity { vec_capacity items.old ≤ vec_capacity items.new }
{
    let _ = items.push(item);
}

/// Takes the first items of a list away.
pub fn drop_front<T: Drop>(items: &mut Vec<T>, count: usize)
    requires { count ≤ length items.old.items }
    ensures items { items.new.items ≡ drop count items.old.items }
    ensures capacity { vec_capacity items.old ≤ vec_capacity items.new }
{
    let _ = items.drain(..count);
}
