// The points of one key, of all its sources.
ghost use Rattle.std.specs.Prelude.{◌≡◌, All, IfOk, None, length, replicate, slice_get};
ghost use Rattle.point_model.specs.Cursors.{TakesFirst};
ghost use Rattle.merge_cursor.specs.Overlays.{AreInOrder, overlay};
ghost use Rattle.merge_cursor.specs.Steps.{heads_of};
ghost use Rattle.point_view.specs.Heads.{head_passed, heads_passed, with_head, with_heads};

use crate::source::Source;
use merge_cursor::Overlay;
use std::alloc::{AllocError, Global};
use std::marker::Model;
use tsdb_types::{Time, Value};

/// The points that are left of a key, of which each source hides the older ones. A contract sees them, in the order in which
/// they are taken.
#[derive(Drop)]
pub struct KeyCursor {
    merge: Overlay,
    /// The newest stands first.
    sources: Vec<Source>,
    /// The first point that is left of each source, where it was looked at.
    heads: Vec<Option<(Time, Value)>>,
}

impl Model for KeyCursor {
    ghost use Rattle.std.specs.Prelude.{◌≡◌, All, List, length};
    ghost use Rattle.point_model.specs.Rows.{Row};
    ghost use Rattle.merge_cursor.specs.Overlays.{AreInOrder, overlay};
    ghost use Rattle.point_view.specs.Heads.{with_heads};

    ghost Value = { List Row };

    ghost view = { λ c. overlay c.merge (with_heads c.heads.items c.sources.items) };

    ghost invariant = { λ c. (length c.heads.items ≡ length c.sources.items) × All (AreInOrder c.merge) (with_heads c.heads.items c.sources.items) };
}

impl KeyCursor {
    /// The overlay of these sources, the newest first. No point is looked at yet.
    pub fn new(
        alloc: Global,
        sources: Vec<Source>,
        descending: bool,
    ) -> Result<KeyCursor, AllocError>
        requires { All (AreInOrder descending) sources.items }
        ensures { IfOk result (λ cursor. cursor ≡ overlay descending sources.items) }
    {
        let heads = no_heads(alloc, sources.len())?;
        Ok(KeyCursor {
            merge: Overlay::new(descending),
            sources,
            heads,
        })
    }

    /// Takes the next point. It looks at one point of each source.
    pub fn next(&mut self) -> Option<(Time, Value)>
        ensures { TakesFirst result self.old self.new }
    {
        fill(&mut self.heads, &mut self.sources);
        match self.merge.step(self.heads.as_slice()) {
            Some(next) => {
                pass(&mut self.heads, next.1);
                Some((next.1, next.2))
            }
            None => None,
        }
    }
}

// No source was looked at yet.
fn no_heads(alloc: Global, count: usize) -> Result<Vec<Option<(Time, Value)>>, AllocError>
    ensures { IfOk result (λ heads. heads.items ≡ replicate count None) }
{
    vec![in alloc; None; count]
}

// Looks at the first point that is left of each source.
fn fill(heads: &mut Vec<Option<(Time, Value)>>, sources: &mut Vec<Source>)
    requires { length heads.old.items ≡ length sources.old.items }
    ensures heads { heads.new.items ≡ heads_of (with_heads heads.new.items sources.new.items) }
    ensures kept { with_heads heads.new.items sources.new.items ≡ with_heads heads.old.items sources.old.items }
    ensures len { length heads.new.items ≡ length sources.new.items }
{
    for k in 0..sources.len() {
        look(&mut heads[k], &mut sources[k]);
    }
}

// Looks at the first point that is left of a source.
fn look(head: &mut Option<(Time, Value)>, source: &mut Source)
    ensures kept { with_head head.new source.new ≡ with_head head.old source.old }
    ensures looked { head.new ≡ slice_get (with_head head.new source.new) 0 }
{
    if head.is_none() {
        *head = source.next();
    }
}

// Each source goes on that stands at the time.
fn pass(heads: &mut Vec<Option<(Time, Value)>>, time: Time)
    ensures { heads.new.items ≡ heads_passed time heads.old.items }
{
    for head in heads.iter_mut() {
        *head = passed(*head, time);
    }
}

fn passed(head: Option<(Time, Value)>, time: Time) -> Option<(Time, Value)>
    ensures { result ≡ head_passed time head }
{
    match head {
        Some(row) => {
            if row.0 == time {
                return None;
            }
            Some(row)
        }
        None => None,
    }
}
