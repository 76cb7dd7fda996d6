// What a pass knows and owns. Clauses speak of it; no value of it is made.
use std::collections::LinkedList;

/// What a pass knows of the history, and what of it is its own. It stands in clauses alone.
pub struct PassView<S, E, L> {
    /// The start of the history.
    pub start: S,
    /// The entries that the pass has seen, oldest first.
    pub seen: LinkedList<E>,
    /// What the pass that was joined last had seen, until the next look at the count.
    pub told: LinkedList<E>,
    /// How often the pass has loaded the count of entries.
    pub looks: u64,
    /// From `take` to `give`.
    pub has_turn: bool,
    /// The faults of the value as `take` found it; 0 without the turn.
    pub faults_found: u64,
    /// The loans of the value as `take` found it; none without the turn.
    pub loans_found: LinkedList<L>,
    /// Of 4294967296 parts, which all passes and notes have together.
    pub parts: u64,
    /// The numbers of the entries that were added under the pass, newest first.
    pub own: LinkedList<u64>,
    /// How many gives under the pass put back a value whose faults had risen.
    pub faults: u64,
    /// The loans that were begun under the pass and haven't ended.
    pub loans: LinkedList<L>,
}
