ghost use Rattle.merge_cursor.specs.Laws.{OneOverlay, OverlaysNest, StepsGiveOverlay};

/// Sources have one overlay; what is hidden from all of them alike is hidden from it; and it is turned round with them.
pub fn one_overlay()
    ensures { OneOverlay }
{}

/// The point that a step names and then the overlay of what is left behind it are the overlay, and where no step is left
/// it is empty.
pub fn steps_give_overlay()
    ensures { StepsGiveOverlay }
{}

/// Sources that stand in a row may give place to their overlay, as files do to what they are merged into.
pub fn overlays_nest()
    ensures { OverlaysNest }
{}
