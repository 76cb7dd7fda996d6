//! The points of one key from several sources, of which the newest hides the others: which source gives the next point,
//! and that stepping so gives the sources' overlay. It stands on `point_model`.
#![tactic(auto)]

mod laws;
mod overlay;

pub use laws::{one_overlay, overlays_nest, steps_give_overlay};
pub use overlay::Overlay;
