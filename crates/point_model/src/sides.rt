// The sides that are open around the place where a condition is read.
ghost use Rattle.std.specs.Prelude.{◌≡◌, IfOk, OnOk, reverse};
ghost use Rattle.point_model.specs.Flat.{left_open, begun};

use crate::Join;
use std::alloc::AllocError;

// Closes the innermost side, and each around it that is a second one. Answers the join whose second side is open then; none where no
// side is.
pub(crate) fn close(waiting: &mut Vec<Option<Join>>) -> Result<Option<Join>, AllocError>
    ensures begun { IfOk result (λ join. join ≡ begun (reverse waiting.old.items)) }
    ensures left { OnOk result (reverse waiting.new.items ≡ left_open (reverse waiting.old.items)) }
{
    while let Some(side) = waiting.pop() {
        if let Some(join) = side {
            waiting.push(None)?;
            return Ok(Some(join));
        }
    }
    Ok(None)
}
