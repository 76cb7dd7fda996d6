use std::marker::Brand;

/// What is known of an engine as a store over it begins. It is for the proofs alone: a session keeps of a store only what the store
/// tells, and who lends one out knows by its type what the engine was that comes back.
pub trait Site {
    ghost use Rattle.std.specs.Prelude.{ℕ, List};
    ghost use Rattle.shard_disk.specs.HandedOut.{HandedOut};
    ghost use Rattle.point_model.specs.Histories.{State};

    /// The points in memory and the number of the last entry.
    ghost start: { State };

    /// The series that are held.
    ghost series: { List (List ℕ) };

    /// What has to hold of the disk for the history to be durable since a moment.
    ghost is_sound: { ℕ → Type 0 };

    /// What the disk has handed out: its next number, the readers that are out, and which files are adopted.
    ghost handed_out: { HandedOut };
}

impl Site for Brand {
    ghost use Rattle.std.specs.Prelude.{[], false, ⊤};
    ghost use Rattle.point_model.specs.Histories.{nothing};

    ghost start = { nothing };

    ghost series = { [] };

    ghost is_sound = { λ _. ⊤ };

    ghost handed_out = { record { next_number = 0; readers = λ _. 0; adopted = λ _. false } };
}
