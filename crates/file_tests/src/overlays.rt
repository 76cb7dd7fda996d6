use merge_cursor::Overlay;
use tsdb_types::{Time, Value};

fn at(number: i64) -> Time {
    Time::new(number).unwrap_or_default()
}

fn head(time: i64, value: i64) -> Option<(Time, Value)> {
    Some((at(time), Value::Int(value)))
}

// Whether a step over these heads names this source with this time and value.
fn gives(
    descending: bool,
    heads: &[Option<(Time, Value)>],
    want: Option<(usize, i64, i64)>,
) -> bool {
    let want = want.map(|(source, time, value)| (source, at(time), Value::Int(value)));
    Overlay::new(descending).step(heads) == want
}

#[test]
fn the_next_row_is_the_first_of_the_newest(rt: HostRuntime) {
    // Of equal times that of the newest source.
    assert!(rt;
        gives(
            false,
            &[head(10, 1), head(10, 2), head(20, 3)],
            Some((0, 10, 1))
        )
    );
    assert!(rt;
        gives(
            true,
            &[head(20, 1), head(10, 2), head(20, 3)],
            Some((0, 20, 1))
        )
    );

    // An older source that comes before.
    assert!(rt;
        gives(
            false,
            &[head(20, 1), head(-5, 2), head(-5, 3)],
            Some((1, -5, 2))
        )
    );
    assert!(rt; gives(true, &[head(20, 1), None, head(30, 3)], Some((2, 30, 3))));

    // Sources without a further row.
    assert!(rt; gives(false, &[None, None, head(0, 3)], Some((2, 0, 3))));
    assert!(rt; gives(false, &[None, None, None], None));
    assert!(rt; gives(true, &[], None));
}
