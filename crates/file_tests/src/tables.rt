ghost use Rattle.std.specs.Prelude.{◌≡◌, None};

use file_table::{FileRow, FileTable};
use std::test::Fail;

/// A row of level 1 without tombstones.
fn row(no: u32, generation: u64) -> FileRow
    ensures holds { result.holds ≡ 0 }
    ensures tomb { result.tomb ≡ None }
    ensures file { result.no ≡ no }
{
    FileRow {
        no,
        generation,
        sequence: 1,
        level: 1,
        points: 1,
        most_entries: 1,
        tomb: None,
        holds: 0,
        busy: false,
    }
}

#[test]
fn there_is_room_for_a_row_and_its_files(rt: HostRuntime) -> Result<(), Fail> {
    let mut table = FileTable::new(rt.alloc());
    table.reserve(1, 0)?;
    table.place(row(7, 1));
    assert_eq!(rt; table.len(), 1);
    let hold = table.hold(7);
    table.replace(0, 1, None);
    assert_eq!(rt; table.free_count(), 0);
    table.unhold(hold);
    assert_eq!(rt; table.free_count(), 1);
    let first = table.free_at(0);
    assert_eq!(rt; first, 7);
    table.forget(first);
    assert!(rt; table.gone() == [7].as_slice());
    Ok(())
}
