//! One value behind one turn. Passes take turns with the value; all of them know beginnings of one history, which
//! only grows, and each owns the numbers, faults and loans that came about under it.
#![tactic(auto)]

mod counted;
mod note;
mod pass;
mod steps;
mod turn;
mod view;

pub use counted::{Counted, News, Nothing};
pub use note::Note;
pub use pass::{Held, Pass};
pub use turn::Turn;
pub use view::PassView;
