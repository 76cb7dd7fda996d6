ghost use Rattle.std.specs.Prelude.{◌≡◌, ◌<◌, None, length, IfOk};

use compact_plan::{Group, Merged, after_merge, plan_full, plan_level};
use file_table::{FileRow, FileTable};
use std::alloc::{AllocError, Global};
use std::test::Fail;

// A row with its level, its most entries and its mark, of the file and generation `no`.
fn row_of(no: u32, row: (u8, u32, bool)) -> FileRow
    ensures holds { result.holds ≡ 0 }
    ensures tomb { result.tomb ≡ None }
    ensures file { result.no ≡ no }
    ensures generation { result.generation ≡ no }
{
    let (level, most_entries, busy) = row;
    FileRow {
        no,
        generation: u64::from(no),
        sequence: no,
        level,
        points: 1,
        most_entries,
        tomb: None,
        holds: 0,
        busy,
    }
}

// A table of these rows, of files 1, 2, .., the oldest first.
fn table_of(alloc: Global, rows: &[(u8, u32, bool)]) -> Result<FileTable, AllocError>
    requires { length rows.now < 100 }
    ensures { IfOk result (λ table. length table.rows ≡ length rows.now) }
{
    let mut table = FileTable::new(alloc);
    table.reserve(rows.len(), 0)?;
    let mut no = 0;
    for row in rows {
        no += 1;
        table.place(row_of(no, *row));
    }
    Ok(table)
}

const IDLE: (u8, u32, bool) = (1, 1, false);

const BUSY: (u8, u32, bool) = (1, 1, true);

fn group(first: usize, count: usize) -> Option<Group> {
    Some(Group { first, count })
}

// Rows of level 1: whether so many are a group is looked at from the oldest on.
#[test]
fn eight_idle_rows_of_level_1_are_a_group(rt: HostRuntime) -> Result<(), Fail> {
    let mut rows = [IDLE; 9];
    let table = table_of(rt.alloc(), &rows)?;
    assert!(rt; plan_level(&table) == group(0, 8));
    assert!(rt; plan_full(&table).is_none());

    rows[0] = BUSY;
    let table = table_of(rt.alloc(), &rows)?;
    assert!(rt; plan_level(&table) == group(1, 8));

    rows[0] = IDLE;
    rows[2] = BUSY;
    let table = table_of(rt.alloc(), &rows)?;
    assert!(rt; plan_level(&table).is_none());
    Ok(())
}

#[test]
fn a_group_has_no_more_entries_than_a_key_may_have(rt: HostRuntime) -> Result<(), Fail> {
    let mut rows = [(1, 8192, false); 8];
    let table = table_of(rt.alloc(), &rows)?;
    assert!(rt; plan_level(&table).is_none());

    rows[7] = (1, 8191, false);
    let table = table_of(rt.alloc(), &rows)?;
    assert!(rt; plan_level(&table) == group(0, 8));
    Ok(())
}

#[test]
fn lower_levels_are_merged_first_and_level_4_in_full(rt: HostRuntime) -> Result<(), Fail> {
    let two = (2, 1, false);
    let three = (3, 1, false);
    let four = (4, 1, false);
    let rows = [
        four, four, four, four, three, three, three, three, two, two, two, two,
    ];
    let table = table_of(rt.alloc(), &rows)?;
    assert!(rt; plan_level(&table) == group(8, 4));
    assert!(rt; plan_full(&table) == group(0, 4));
    let want = [(8, 12, 13, 3), (4, 8, 9, 4), (0, 4, 5, 4)];
    for (first, generation, sequence, level) in want {
        let merged = after_merge(&table, Group { first, count: 4 });
        assert!(rt;
            merged
                == Merged {
                    generation,
                    sequence,
                    level
                }
        );
    }

    let table = table_of(rt.alloc(), &rows[..8])?;
    assert!(rt; plan_level(&table) == group(4, 4));
    let table = table_of(rt.alloc(), &rows[..7])?;
    assert!(rt; plan_level(&table).is_none());
    Ok(())
}
