use influxql_parser::{ReadFault, read_deletion};
use std::process::Abort;
use tsdb_types::SeriesKey;

const FIRST: i64 = -9223372036854775806;

const LAST: i64 = 9223372036854775806;

/// A text, the measurement and the times that it deletes at moment 1,000, and which of `m,host=a`, `m,host=b` and `m` meet its condition.
struct Row {
    text: &'static str,
    measurement: &'static str,
    times: (i64, i64),
    met: [bool; 3],
}

const ROWS: [Row; 14] = [
    Row {
        text: "DELETE FROM m",
        measurement: "m",
        times: (FIRST, LAST),
        met: [true, true, true],
    },
    Row {
        text: "\t delete from \"a b\" ; ",
        measurement: "a b",
        times: (FIRST, LAST),
        met: [true, true, true],
    },
    Row {
        text: "DROP MEASUREMENT m",
        measurement: "m",
        times: (FIRST, LAST),
        met: [true, true, true],
    },
    Row {
        text: "DROP SERIES FROM m WHERE host = 'a'",
        measurement: "m",
        times: (FIRST, LAST),
        met: [true, false, false],
    },
    Row {
        text: "DELETE FROM m WHERE time < 10",
        measurement: "m",
        times: (FIRST, 9),
        met: [true, true, true],
    },
    Row {
        text: "DELETE FROM m WHERE time >= -5 AND time <= 7u",
        measurement: "m",
        times: (-5, 7000),
        met: [true, true, true],
    },
    Row {
        text: "DELETE FROM m WHERE host != 'a' AND (time > 3 AND host <> 'c')",
        measurement: "m",
        times: (4, LAST),
        met: [false, true, true],
    },
    Row {
        text: "DELETE FROM m WHERE host = 'a' OR host = 'b' AND host != 'b'",
        measurement: "m",
        times: (FIRST, LAST),
        met: [true, false, false],
    },
    Row {
        text: "DELETE FROM m WHERE (host = 'a' OR host = 'b') AND host != 'b' AND time = now() - 1u",
        measurement: "m",
        times: (0, 0),
        met: [true, false, false],
    },
    Row {
        text: "DELETE FROM m WHERE host = '' AND time > 5 AND time < 5",
        measurement: "m",
        times: (LAST, FIRST),
        met: [false, false, true],
    },
    Row {
        text: "DELETE FROM m WHERE time >= '1970-01-02' AND time < '1970-01-02T00:00:01.5Z' + 1s",
        measurement: "m",
        times: (86_400_000_000_000, 86_402_499_999_999),
        met: [true, true, true],
    },
    Row {
        text: "DELETE FROM m WHERE time <= '1969-12-31 23:59:59.000000001'",
        measurement: "m",
        times: (FIRST, -999_999_999),
        met: [true, true, true],
    },
    Row {
        text: "DELETE FROM m WHERE time > 9223372036854775807",
        measurement: "m",
        times: (LAST, FIRST),
        met: [true, true, true],
    },
    Row {
        text: "DELETE FROM m WHERE \"time\" = 'x' OR host = 'b'",
        measurement: "m",
        times: (FIRST, LAST),
        met: [false, true, false],
    },
];

const NO_STATEMENT: [&str; 14] = [
    "DELETE",
    "DELETE FROM",
    "DELETE m",
    "DELETE FROM m WHERE",
    "DELETE FROM m;;",
    "DELETE FROM m WHERE v = 1",
    "DELETE FROM m WHERE host < 'a'",
    "DELETE FROM m WHERE time != 5",
    "DELETE FROM m WHERE host = 'a' AND",
    "DELETE FROM m WHERE (host = 'a'",
    "DELETE FROM m WHERE time > '1970-02-30'",
    "DROP SERIES FROM m WHERE time > 5",
    "DROP SERIES m",
    "DROP MEASUREMENT m WHERE host = 'a'",
];

const TIME_IN_OR: [&str; 3] = [
    "DELETE FROM m WHERE time > 1 OR time < 0",
    "DELETE FROM m WHERE host = 'a' OR (host = 'b' AND time > 9223372036854775808)",
    "DELETE FROM m WHERE host = 'a' AND (host = 'b' OR time > 1)",
];

const OUT_OF_RANGE: [&str; 4] = [
    "DELETE FROM m WHERE time > 9223372036854775808",
    "DELETE FROM m WHERE time > -9223372036854775808ns",
    "DELETE FROM m WHERE time > '2263-01-01'",
    "DELETE FROM m WHERE time > 9223372036854775807 + 1ns",
];

const OTHERS: [&str; 4] = ["", "SELECT v FROM m", "DELETED FROM m", "\"DELETE\" FROM m"];

fn check_row(rt: &(impl Abort + AllocGlobal), row: &Row) {
    let deletion = read_deletion(rt.alloc(), row.text, 1000).expect(rt, "a deletion");
    let deletion = deletion.expect(rt, "a statement");
    assert!(rt;
        deletion.measurement.as_str() == row.measurement,
        "{}",
        row.text
    );
    assert!(rt; deletion.from.get() == row.times.0, "{}", row.text);
    assert!(rt; deletion.to.get() == row.times.1, "{}", row.text);
    for (series, met) in ["m,host=a", "m,host=b", "m"].iter().zip(row.met.iter()) {
        let key = SeriesKey::from_text(rt.alloc(), series);
        let key = key.expect(rt, "memory").expect(rt, "a series");
        assert!(rt; deletion.tags.meets(&key) == *met, "{} {series}", row.text);
    }
}

fn check_fault(rt: &(impl Abort + AllocGlobal), text: &str, wanted: ReadFault) {
    match read_deletion(rt.alloc(), text, 1000) {
        Ok(_) => assert!(rt; false, "{text}"),
        Err(fault) => assert!(rt; fault == wanted, "{text}"),
    }
}

#[test]
fn deletions_are_read(rt: HostRuntime) {
    for row in &ROWS {
        check_row(&rt, row);
    }
}

#[test]
fn others_are_refused(rt: HostRuntime) {
    for text in &NO_STATEMENT {
        check_fault(&rt, text, ReadFault::Syntax);
    }
    for text in &TIME_IN_OR {
        check_fault(&rt, text, ReadFault::TimeInOr);
    }
    for text in &OUT_OF_RANGE {
        check_fault(&rt, text, ReadFault::NumberRange);
    }
    for text in &OTHERS {
        let read = read_deletion(rt.alloc(), text, 1000);
        assert!(&rt; matches!(read, Ok(None)), "{text}");
    }
}
