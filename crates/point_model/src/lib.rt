//! What a database of points means, as definitions: its points, the entries that change them, which series meet a condition
//! on tags, when a batch is accepted, and the rows of a field; and how the points of a query are read. The crates above state
//! their contracts by these.
#![tactic(auto)]

ghost use Rattle.point_model.specs.Laws as laws;
ghost use Rattle.point_model.specs.Tags.{TagsAreRead};

mod condition;
mod cursor;
mod deletion;
mod entry;
mod fault;
mod names;
mod need;
mod part;
mod reader;
mod sides;
mod step;
mod tag_text;
mod tags;

pub use condition::TagCond;
pub use cursor::PointCursor;
pub use deletion::Deletion;
pub use entry::Entry;
pub use fault::CursorFault;
pub use names::{Fields, Names, TagKeys};
pub use need::Need;
pub use part::{Join, Part, TagTest};
pub use reader::{ReadCond, TagCondReader};
pub use tag_text::TagText;
pub use tags::{measurement_head, text_of_tag};

/// Two histories, one behind the other, leave what the second makes of what the first leaves.
pub fn histories_compose()
    ensures { laws.HistoriesCompose }
{}

/// The text of a series tells the tags that it was made of.
pub fn tags_are_read()
    ensures { TagsAreRead }
{}

/// Writes whose points stand in another grouping, where those of each cell keep their order, do the same to every map of points.
pub fn writes_may_be_regrouped()
    ensures { laws.WritesMayBeRegrouped }
{}

/// A cell behind a history holds what the last entry that touches it makes of it.
pub fn effects_are_told()
    ensures { laws.EffectsAreTold }
{}

/// What layers show: one list behind another, neighbours in place of others, and what a deletion spares.
pub fn layers_show()
    ensures { laws.LayersShow }
{}

/// Points take a batch exactly where no value that they hold is of another kind than the batch has of its field.
pub fn accepted_by_values()
    ensures { laws.AcceptedByValues }
{}

/// To be of one field is an equivalence.
pub fn fields_are_classes()
    ensures { laws.FieldsAreClasses }
{}

/// Points without a value are none, and maps of points with the same values are one.
pub fn values_tell_points()
    ensures none { laws.NoValuesNoPoints }
    ensures same { laws.ValuesTellPoints }
{}

/// What an entry that is taken leaves of stored points is stored points: a map whose cells are cells, one kind for each field.
pub fn entries_keep_stored()
    ensures { laws.EntriesKeepStored }
{}

/// The key of a cell's series and field, with its time, tells the cell.
pub fn keys_tell_cells()
    ensures { laws.KeysTellCells }
{}
