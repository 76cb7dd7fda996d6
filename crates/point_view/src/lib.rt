//! What one query sees of its keys in files, snapshot and cache, newest first: the points that are left of a source, of a key,
//! and of a view.
#![tactic(auto)]

mod hidden;
mod key_cursor;
mod laws;
mod memory;
mod places;
mod source;
mod stored;
mod stretch;
mod view;

pub use key_cursor::KeyCursor;
pub use laws::views_see;
pub use source::Source;
pub use stored::Stored;
pub use view::View;
