ghost use Rattle.std.specs.Prelude.{◌≡◌, ◌+◌, ◌++◌, ◌∷◌, [], ℕ, List, length, Option, None, IsTrue};
ghost use Rattle.std.specs.FinMap.{keys};
ghost use Rattle.std.specs.Option.{option_to_list};
ghost use Rattle.shard_disk.specs.Directory.{Directory, IsPresent};
ghost use Rattle.point_model.specs.Histories.{State, state_after};
ghost use Rattle.point_model.specs.declared.entry.Entry.{Entry};
ghost use Rattle.shard_state.specs.Books.{Books, state_in};
ghost use Rattle.shard_state.specs.Crashes.{LeavesOnly};
ghost use Rattle.shard_state.specs.Engine.{Holds, IsOpened};
ghost use Rattle.shard_state.specs.History.{Attempt, Made, Ran, StandsForPrefix, Survives, entries_of};
ghost use Rattle.shard_state.specs.Meaning.{Stands, StandsWithAtMost};
ghost use Rattle.shard_state.specs.Opening.{IsSoundThroughout, IsSoundWithAtMost};
ghost use Rattle.shard_state.specs.declared.logs.Logs.{Logs};

use shard_disk::Disk;

/// A history begins at the moment before an opening, and goes on by calls that refuse no entry. Its number counts its entries, and what
/// a crash leaves now has all of them, with the one in doubt or without.
pub fn histories_go_on<D: Disk>()
    ensures begins { (disk : D) (logs : Logs D) (state : State) → LeavesOnly (λ (c : Directory). Stands c state) (D.crashes disk) (D.crashes logs.disk)
        → IsOpened D.Disk state logs → Ran D.Disk logs state (D.crashes disk).moment [] [] None }
    ensures on { (old new : Logs D) (start : State) (since : ℕ) (made : List Made) (refused : List Attempt) (doubt : Option Entry) (books : Books)
        → Ran D.Disk old start since made refused doubt → Holds D.Disk new books doubt → state_in books ≡ state_after start (entries_of made)
        → LeavesOnly (StandsWithAtMost (state_after start (entries_of made)) (option_to_list doubt)) (D.crashes old.disk) (D.crashes new.disk)
        → Ran D.Disk new start since made refused doubt }
    ensures number { (logs : Logs D) (start : State) (since : ℕ) (made : List Made) (refused : List Attempt) (doubt : Option Entry)
        → Ran D.Disk logs start since made refused doubt → logs.number ≡ start.number + length made }
    ensures now { (logs : Logs D) (start : State) (since : ℕ) (made : List Made) (refused : List Attempt) (doubt : Option Entry)
        → Ran D.Disk logs start since made refused doubt → (c : Directory) → (D.crashes logs.disk).now c
        → StandsWithAtMost (state_after start (entries_of made)) (option_to_list doubt) c }
{}

/// Each image of any moment since the start of a history stands for a prefix of its entries and at most one entry more, which was
/// refused behind exactly that prefix, and each since the moment of an entry has that entry. A disk is sound as it is opened, where
/// the logs on it were left as they were and where it reads what a crash left. It stands for one state.
pub fn crashes_keep_entries<D: Disk>()
    ensures prefix { (disk : D) (start : State) (since : ℕ) (made : List Made) (refused : List Attempt) → Survives (D.crashes disk) start since made refused
        → (c : Directory) → (D.crashes disk).since since c → StandsForPrefix start (entries_of made) refused 0 c }
    ensures has_entry { (disk : D) (start : State) (since : ℕ) (before : List Made) (m : Made) (behind : List Made) (refused : List Attempt)
        → Survives (D.crashes disk) start since (before ++ m ∷ behind) refused
        → (c : Directory) → (D.crashes disk).since m.moment c → StandsForPrefix start (entries_of (before ++ m ∷ behind)) refused (length before + 1) c }
    ensures left { (logs : Logs D) (books : Books) (doubt : Option Entry) → IsTrue D.tells → Holds D.Disk logs books doubt
        → IsSoundWithAtMost D.Disk logs.disk (state_in books) (option_to_list doubt) }
    ensures opens { (disk : D) (state : State) → Stands (D.files disk) state → ((c : Directory) → (D.crashes disk).now c → c ≡ D.files disk)
        → ((n : ℕ) → IsPresent (D.files disk) n → IsTrue ((D.handed_out disk).adopted n)) → (keys (D.files disk) ≡ [] → (D.handed_out disk).next_number ≡ 0)
        → IsSoundThroughout D.Disk disk state }
{}
