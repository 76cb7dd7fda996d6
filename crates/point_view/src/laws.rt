ghost use Rattle.point_view.specs.Laws.{ViewsSee};

/// Sources of a key, newest first, that have the rows of their contents give together what a cursor over the points gives that the
/// contents show.
pub fn views_see()
    ensures { ViewsSee }
{}
