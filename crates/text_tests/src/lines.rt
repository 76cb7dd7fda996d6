use line_protocol::{LineCode, LineFault, read_batch};
use std::alloc::{AllocError, Global};
use std::process::Abort;
use tsdb_types::{Batch, Time, Value};

fn read(rt: &impl Abort, alloc: Global, text: &str) -> Result<Batch, LineFault> {
    read_batch(alloc, text.as_bytes(), Time::new(7).expect(rt, "a time"))
}

fn is_refused(alloc: Global, rt: &impl Abort, text: &str, wanted: LineCode, at: u32) -> bool {
    match read(rt, alloc, text) {
        Err(LineFault::Line { code, line }) => code == wanted && line == at,
        _ => false,
    }
}

/// A code, lines that are refused with it, and lines beside them that are read.
struct Row {
    code: LineCode,
    refused: &'static [&'static str],
    read: &'static [&'static str],
}

// Each of the lines is refused with the code, and each of its neighbours is read.
fn parts(rt: &(impl Abort + AllocGlobal), row: &Row) {
    for line in row.refused {
        assert!(rt; is_refused(rt.alloc(), rt, line, row.code, 1), "{line}");
    }
    for line in row.read {
        assert!(rt; read(rt, rt.alloc(), line).is_ok(), "{line}");
    }
}

fn check(rt: &(impl Abort + AllocGlobal), rows: &[Row]) {
    for row in rows {
        parts(rt, row);
    }
}

const HEADS: [Row; 4] = [
    Row {
        code: LineCode::NoMeasurement,
        refused: &[",a=b v=1i", "  ,a=b v=1i", ",", ", v=1i", ",a=b"],
        read: &["\\,a=b v=1i", "\\ m v=1i", "m v=1i", "=,a=b v=1i"],
    },
    Row {
        code: LineCode::BadTag,
        refused: &[
            "m, v=1i",
            "m,a v=1i",
            "m,a= v=1i",
            "m,=b v=1i",
            "m,a=b=c v=1i",
            "m,a=b, v=1i",
            "m,a=b,,c=d v=1i",
            "m,a\\=b v=1i",
            "m,a==b v=1i",
            "m,a=b,a=c,d v=1i",
            "m,a",
        ],
        read: &[
            "m,a=b v=1i",
            "m,a=b\\=c v=1i",
            "m,a\\==b v=1i",
            "m,a\\,=b v=1i",
            "m,a=\\, v=1i",
            "m=\\,a v=1i",
        ],
    },
    Row {
        code: LineCode::DuplicateTag,
        refused: &[
            "m,a=b,a=c v=1i",
            "m,a=b,a=b v=1i",
            "m,a\\ =b,c=d,a\\ =e v=1i",
            "m,time=b,time=c v=1.5",
            "m,a=b,c=d,a=e",
        ],
        read: &["m,a=b,A=b v=1i", "m,a=b,aa=b v=1i", "m,\\a=b,a=b v=1i"],
    },
    Row {
        code: LineCode::NoField,
        refused: &[
            "m",
            "m   ",
            "m,a=b",
            "m,a=b\\ v",
            "m\\ v=1i",
            "m\\",
            "m,a=b\\",
            "m\\ \\",
        ],
        read: &["m   v=1i", "m,a=b\\ c v=1i", "m\\  v=1i"],
    },
];

#[test]
fn the_head_of_a_line(rt: HostRuntime) {
    check(&rt, &HEADS);
}

const FIELDS: [Row; 4] = [
    Row {
        code: LineCode::BadField,
        refused: &[
            "m =1i",
            "m v",
            "m v=",
            "m v=,w=1i",
            "m v=1i,",
            "m ,v=1i",
            "m v=1i,,w=2i",
            "m v\\=1i",
            "m v==1i",
            "m v=i",
            "m v=-i",
            "m v=u",
            "m v=-1u",
            "m v=+1i",
            "m v=1I",
            "m v=1ii",
            "m v=1i\\ ",
            "m v=0x1i",
            "m v=tr",
            "m v=tRUE",
            "m v=.",
            "m v=-",
            "m v=1e",
            "m v=1e+",
            "m v=.e5",
            "m v=1x,w=1.5",
            "m v=1i\t",
        ],
        read: &[
            "m v=0i",
            "m v=-0i",
            "m v=007u",
            "m v\\==1i",
            "m v=t,w=T,x=true,y=True,z=TRUE",
            "m v=f,w=F,x=false,y=False,z=FALSE",
        ],
    },
    Row {
        code: LineCode::FloatValue,
        refused: &[
            "m v=1",
            "m v=-1",
            "m v=1.",
            "m v=1.5,w=2x",
            "m v=.5",
            "m v=-.5e+9",
            "m v=1e9",
            "m v=1E-9",
            "m v=5.e3",
            "m v=1 1i",
        ],
        read: &["m 1.5=1i"],
    },
    Row {
        code: LineCode::StringValue,
        refused: &[
            "m v=\"a\"",
            "m v=\"",
            "m v=\"a b\"",
            "m v=\"a,c=1.5",
            "m v=\"1i",
        ],
        read: &["m \"v\"=1i", "m,a=\"b\" v=1i"],
    },
    Row {
        code: LineCode::NumberRange,
        refused: &[
            "m v=9223372036854775808i",
            "m v=-9223372036854775809i",
            "m v=18446744073709551616u",
            "m v=99999999999999999999999999i",
            "m v=18446744073709551617i nine",
        ],
        read: &[
            "m v=9223372036854775807i",
            "m v=-9223372036854775808i",
            "m v=18446744073709551615u",
            "m v=00000000000000000000000009223372036854775807i",
        ],
    },
];

#[test]
fn the_fields_of_a_line(rt: HostRuntime) {
    check(&rt, &FIELDS);
}

const TIMES_AND_NAMES: [Row; 5] = [
    Row {
        code: LineCode::BadTime,
        refused: &[
            "m v=1i x",
            "m v=1i 1 2",
            "m v=1i +1",
            "m v=1i 1.5",
            "m v=1i -",
            "m v=1i --1",
            "m v=1i 1i",
            "m v=1i 1\t",
            "m v=1i 1\\ ",
            "m,time=b v=1i x",
        ],
        read: &["m v=1i 1", "m v=1i   -1  ", "m v=1i 0010"],
    },
    Row {
        code: LineCode::TimeRange,
        refused: &[
            "m v=1i 9223372036854775807",
            "m v=1i -9223372036854775807",
            "m v=1i 18446744073709551626",
            "m v=1i -99999999999999999999",
            "m time=1i 9223372036854775807",
        ],
        read: &[
            "m v=1i 9223372036854775806",
            "m v=1i -9223372036854775806",
            "m v=1i -0",
        ],
    },
    Row {
        code: LineCode::ReservedName,
        refused: &[
            "m,time=b v=1i",
            "m,a=b,time=c v=1i",
            "m time=1i",
            "m v=1i,time=2i,v=t",
            "m#!~#,a=b time=1i",
        ],
        read: &[
            "m,Time=b TIME=1i",
            "time,a=time v=1i",
            "m,times=b tim=1i",
            "m tim\\e=1i",
        ],
    },
    Row {
        code: LineCode::MarkInKey,
        refused: &["m#!~#,a=b v=1i", "m,a=#!~# v=1i", "m#!~ v=1i,v=t"],
        read: &["m v#!~#=1i", "m#!,a=b v=1i", "m#!~\\ # v=1i"],
    },
    Row {
        code: LineCode::KindInBatch,
        refused: &["m v=1i,v=t", "m v=1i,w=2i,v=3u", "m v=t,v=1i"],
        read: &["m v=1i,v=2i", "m v=1i,V=2u"],
    },
];

#[test]
fn the_time_and_the_names_of_a_line(rt: HostRuntime) {
    check(&rt, &TIMES_AND_NAMES);
}

#[test]
fn the_lines_of_a_batch(rt: HostRuntime) {
    let refused = [
        ("", LineCode::NoPoints, 0),
        ("\n\n", LineCode::NoPoints, 0),
        ("# m v=1i\r\n   \r\n\r", LineCode::NoPoints, 0),
        ("m v=1i\n\nm,a=b v=2u", LineCode::KindInBatch, 3),
        ("m v=1i\n# m v=2u\nm v=1.5\nm v=2u", LineCode::FloatValue, 3),
        ("m v=1i\nm v=1i x\nm", LineCode::BadTime, 2),
        ("m v=1i\r\r\n", LineCode::BadField, 1),
        ("m v=1i\n\tm v=1i\n m", LineCode::NoField, 3),
        ("#\nm v=1i\n,\n", LineCode::NoMeasurement, 3),
    ];
    for (text, code, line) in &refused {
        assert!(&rt; is_refused(rt.alloc(), &rt, text, *code, *line), "{text}");
    }
    let read = [
        "m v=1i\r\n",
        "m v=1i 1\r",
        "\n  # a comment, v=1\n\nm v=1i",
        "m v=1i\nn v=2u\nm,a=b v=3i",
    ];
    for text in &read {
        assert!(&rt; self::read(&rt, rt.alloc(), text).is_ok(), "{text}");
    }
}

#[test]
fn a_line_is_read(rt: HostRuntime) {
    let text =
        "# a comment\r\n\n  cpu\\,x,host=a\\ b,az=1 v=-5i,w=7u,up=TRUE 10  \r\ncpu v=1i\ncpu v=2i 7\n";
    let batch = read(&rt, rt.alloc(), text).expect(&rt, "a batch");
    let points = batch.points();
    assert!(&rt; points.len() == 5);
    assert!(&rt; points[0].cell.series.text() == "cpu\\,x,az=1,host=a\\ b");
    assert!(&rt; points[0].cell.field.as_str() == "v");
    assert!(&rt; points[0].value == Value::Int(-5));
    assert!(&rt; points[1].value == Value::Uint(7));
    assert!(&rt; points[2].value == Value::Bool(true));
    assert!(&rt; points[2].cell.time.get() == 10);
    assert!(&rt; points[3].cell.time.get() == 7);
    assert!(&rt; points[3].cell == points[4].cell);
    assert!(&rt; points[4].value == Value::Int(2));
}

#[test]
fn an_escape_at_every_place(rt: HostRuntime) {
    let text =
        "m\\,\\ \\=\\m,k\\,\\=\\ \\k=v\\,\\=\\ \\v f\\,\\=\\ \\f\\\\,=18446744073709551615u -10";
    let batch = read(&rt, rt.alloc(), text).expect(&rt, "a batch");
    let points = batch.points();
    assert!(&rt; points.len() == 1);
    assert!(&rt; points[0].cell.series.text() == "m\\,\\ \\=\\m,k\\,\\=\\ \\k=v\\,\\=\\ \\v");
    assert!(&rt; points[0].cell.field.as_str() == "f,= \\f\\,");
    assert!(&rt; points[0].value == Value::Uint(18446744073709551615));
    assert!(&rt; points[0].cell.time.get() == -10);
}

// A text with a piece between its front and its end, this many times.
fn repeated(
    alloc: Global,
    front: &str,
    piece: &str,
    count: u32,
    end: &str,
) -> Result<String, AllocError> {
    let mut text = String::from_str(alloc, front)?;
    for _ in 0..count {
        text.push_str(piece)?;
    }
    text.push_str(end)?;
    Ok(text)
}

#[test]
fn the_longest_batches_and_one_past_them(rt: HostRuntime) {
    let longest = repeated(rt.alloc(), "m v=1i\n", "\n", 4999, "").expect(&rt, "a text");
    let longer = repeated(rt.alloc(), "m v=1i\n", "\n", 4999, " ").expect(&rt, "a text");
    let faulty = repeated(rt.alloc(), "m v=1.5\n", "\n", 4999, " ").expect(&rt, "a text");
    assert!(&rt; read(&rt, rt.alloc(), longest.as_str()).is_ok());
    assert!(&rt; is_refused(rt.alloc(), &rt, longer.as_str(), LineCode::BatchTooLong, 0));
    assert!(&rt; is_refused(rt.alloc(), &rt, faulty.as_str(), LineCode::BatchTooLong, 0));
    let sixteen = "m v=1i\n# 0123456";
    let longest = repeated(rt.alloc(), sixteen, "0123456789abcdef", 1048575, "").expect(
        &rt, "a text",
    );
    let longer = repeated(rt.alloc(), sixteen, "0123456789abcdef", 1048575, "0").expect(
        &rt, "a text",
    );
    assert!(&rt; longest.len() == 16777216);
    assert!(&rt; read(&rt, rt.alloc(), longest.as_str()).is_ok());
    assert!(&rt; is_refused(rt.alloc(), &rt, longer.as_str(), LineCode::BatchTooLong, 0));
}

#[test]
fn the_longest_key_and_one_past_it(rt: HostRuntime) {
    let longest = repeated(rt.alloc(), "cpu,a=", "x", 65524, " v=1i").expect(&rt, "a text");
    let longer = repeated(rt.alloc(), "cpu,a=", "x", 65525, " v=1i,w=t").expect(&rt, "a text");
    let later = repeated(rt.alloc(), "cpu,a=", "x", 65524, " v=1i,ww=t,v=t").expect(&rt, "a text");
    let escaped = repeated(rt.alloc(), "cpu,a=", "\\ ", 32762, " vv=1i").expect(&rt, "a text");
    assert!(&rt; read(&rt, rt.alloc(), longest.as_str()).is_ok());
    assert!(&rt; is_refused(rt.alloc(), &rt, longer.as_str(), LineCode::KeyTooLong, 1));
    assert!(&rt; is_refused(rt.alloc(), &rt, later.as_str(), LineCode::KeyTooLong, 1));
    assert!(&rt; is_refused(rt.alloc(), &rt, escaped.as_str(), LineCode::KeyTooLong, 1));
}
