use line_protocol::read_batch;
use live_points::LivePoints;
use point_model::{Need, PointCursor, TagCond, TagTest};
use std::alloc::Global;
use std::hash::RandomState;
use std::test::Fail;
use tsdb_types::{Kind, Name, Time, Value};

fn at(number: i64) -> Time {
    Time::new(number).unwrap_or_default()
}

// Sets the points of lines, and tells whether it could.
fn set(alloc: Global, live: &mut LivePoints, lines: &str) -> bool {
    let Ok(batch) = read_batch(alloc, lines.as_bytes(), at(7)) else {
        return false;
    };
    let Ok(None) = live.conflict(&batch) else {
        return false;
    };
    match live.reserve(&batch) {
        Ok(()) => {
            live.insert(&batch);
            true
        }
        Err(_) => false,
    }
}

// The kind that the points have where the lines have another, in this field.
fn conflict(alloc: Global, live: &LivePoints, field: &str, lines: &str) -> Option<Kind> {
    let batch = read_batch(alloc, lines.as_bytes(), at(7)).ok()?;
    let (name, held) = live.conflict(&batch).ok()??;
    if name.as_str() != field {
        return None;
    }
    Some(held)
}

// What asks for the points of `cpu` from 0 to 100.
fn need(alloc: Global, descending: bool) -> Option<Need> {
    let measurement = Name::new(alloc, "cpu").ok()?;
    let tags = TagCond::new(alloc, TagTest::True).ok()?;
    Some(Need {
        measurement,
        tags,
        from: at(0),
        to: at(100),
        descending,
    })
}

// The first row of a key in a view.
fn first_row(
    alloc: Global,
    live: &LivePoints,
    descending: bool,
    key: usize,
) -> Option<(Time, Value)> {
    let mut view = live.view(&need(alloc, descending)?, 2).ok()?;
    if key >= view.keys().len() {
        return None;
    }
    view.next(key).ok()?
}

// How many fields, tag keys and keys a view shows.
fn shown(alloc: Global, live: &LivePoints) -> Option<(u64, usize, usize, usize)> {
    let view = live.view(&need(alloc, false)?, 2).ok()?;
    let fields = view.names().fields.as_slice().len();
    let tag_keys = view.names().tag_keys.as_slice().len();
    Some((view.number(), fields, tag_keys, view.keys().len()))
}

#[test]
fn later_batch_wins_and_is_shown(rt: HostRuntime) -> Result<(), Fail> {
    let alloc = rt.alloc();
    let mut live = LivePoints::new(alloc, RandomState::new(&rt)?);
    assert!(rt; set(alloc, &mut live, "cpu,host=a v=1i 10\ncpu,host=b v=2i 20"));
    assert!(rt;
        set(
            alloc,
            &mut live,
            "cpu,host=a v=3i 10\ncpu,host=a v=4i 30\nmem w=true 9"
        )
    );
    assert_eq!(rt; live.cells(), 4);
    assert_eq!(rt; shown(alloc, &live), Some((2, 1, 1, 2)));
    assert_eq!(rt;
        first_row(alloc, &live, false, 0),
        Some((at(10), Value::Int(3)))
    );
    assert_eq!(rt;
        first_row(alloc, &live, true, 0),
        Some((at(30), Value::Int(4)))
    );
    assert_eq!(rt;
        first_row(alloc, &live, false, 1),
        Some((at(20), Value::Int(2)))
    );
    Ok(())
}

#[test]
fn other_kind_of_a_field_is_a_conflict(rt: HostRuntime) -> Result<(), Fail> {
    let alloc = rt.alloc();
    let mut live = LivePoints::new(alloc, RandomState::new(&rt)?);
    assert!(rt; set(alloc, &mut live, "cpu,host=a v=1i 10"));
    let lines = "cpu,host=b w=1i 5\ncpu,host=b v=true 6";
    assert_eq!(rt; conflict(alloc, &live, "v", lines), Some(Kind::Integer));
    assert_eq!(rt; conflict(alloc, &live, "v", "mem v=true 6"), None);
    Ok(())
}
