use std::alloc::Global;
use std::process::Abort;
use tsdb_types::{
    Batch, Cell, KeyFault, Name, Point, Seed, SeriesFault, SeriesKey, Tag, Tags, Time, Value,
    composite, split,
};

fn name(rt: &impl Abort, alloc: Global, text: &str) -> Name {
    Name::new(alloc, text).expect(rt, "a name")
}

fn tags(rt: &impl Abort, alloc: Global, texts: &[(&str, &str)]) -> Tags {
    let mut tags = Vec::new(alloc);
    for (key, value) in texts {
        let tag = Tag {
            key: name(rt, alloc, key),
            value: name(rt, alloc, value),
        };
        tags.push(tag).expect(rt, "room");
    }
    Tags::new(tags)
}

#[test]
fn tags_stand_in_order_and_escaped(rt: HostRuntime) {
    let given = tags(
        &rt,
        rt.alloc(),
        &[("rack", "a=1"), ("host", "b c"), ("a,b", "\\d")],
    );
    let key = SeriesKey::make(rt.alloc(), name(&rt, rt.alloc(), "cpu, all=x"), given).expect(
        &rt, "a key",
    );
    assert!(&rt; key.text() == "cpu\\,\\ all=x,a\\,b=\\d,host=b\\ c,rack=a\\=1");
    assert!(&rt; key.is_of(&name(&rt, rt.alloc(), "cpu, all=x")));
    assert!(&rt; !key.is_of(&name(&rt, rt.alloc(), "cpu,")));
    let copy = key.carry().expect(&rt, "a copy");
    assert!(&rt; copy.text() == key.text());
}

#[test]
fn a_key_is_read_back_from_its_text(rt: HostRuntime) {
    let texts = [
        "cpu",
        "cpu,host=a",
        "my\\ cpu\\,x,a=1,b=2",
        "cpu,a\\=b=c\\\\d,b=\\,",
        "c=p\\u\\=,h\u{e9}=\u{fc}",
        "cpu,a\\ b=1,a!=2",
    ];
    for text in texts {
        let key = SeriesKey::from_text(rt.alloc(), text)
            .expect(&rt, "room")
            .expect(&rt, "a key");
        assert!(&rt; key.text() == text);
    }
}

#[test]
fn a_text_that_is_no_key_is_none(rt: HostRuntime) {
    let texts = [
        "",
        ",a=1",
        "cpu ",
        "cpu\\",
        "cpu,",
        "cpu,a",
        "cpu,a=",
        "cpu,=1",
        "cpu,a=1=2",
        "cpu,a=1,",
        "cpu,b=1,a=2",
        "cpu,a=1,a=2",
        "cpu,a=b c",
        "cpu,a=1\n",
        "cpu\\\n",
        "cpu,a=1\\",
        "cpu,a!=1,a\\ b=2",
    ];
    for text in texts {
        let key = SeriesKey::from_text(rt.alloc(), text).expect(&rt, "room");
        assert!(&rt; key.is_none());
    }
}

#[test]
fn equal_keys_of_tags_are_refused(rt: HostRuntime) {
    let given = tags(
        &rt,
        rt.alloc(),
        &[("host", "a"), ("rack", "1"), ("host", "b")],
    );
    let key = SeriesKey::make(rt.alloc(), name(&rt, rt.alloc(), "cpu"), given);
    assert!(&rt; matches!(&key, Err(SeriesFault::DuplicateTag)));
}

#[test]
fn a_key_is_cut_at_its_first_mark(rt: HostRuntime) {
    let series = SeriesKey::make(
        rt.alloc(),
        name(&rt, rt.alloc(), "cpu"),
        tags(&rt, rt.alloc(), &[("host", "a")]),
    )
    .expect(&rt, "a key");
    let key = composite(rt.alloc(), &series, &name(&rt, rt.alloc(), "a#!~#,b")).expect(
        &rt,
        "a composite key",
    );
    assert!(&rt; key.as_slice() == b"cpu,host=a#!~#a#!~#,b".as_slice());
    assert!(&rt; split(key.as_slice()) == Some(10));
    assert!(&rt; split(b"cpu#!~") == None);
}

#[test]
fn a_mark_in_the_series_is_named(rt: HostRuntime) {
    let series = SeriesKey::make(
        rt.alloc(),
        name(&rt, rt.alloc(), "cpu#!~"),
        tags(&rt, rt.alloc(), &[]),
    )
    .expect(&rt, "a key");
    let key = composite(rt.alloc(), &series, &name(&rt, rt.alloc(), "v"));
    assert!(&rt; matches!(&key, Err(KeyFault::MarkInKey { at: 3 })));
}

#[test]
fn a_batch_has_a_point(rt: HostRuntime) {
    assert!(&rt;
        Batch::new(Vec::new(rt.alloc()), Seed::new(7))
            .expect(&rt, "room")
            .is_none()
    );
    let series = SeriesKey::make(
        rt.alloc(),
        name(&rt, rt.alloc(), "cpu"),
        Tags::new(Vec::new(rt.alloc())),
    )
    .expect(&rt, "a key");
    let point = Point {
        cell: Cell {
            time: Time::default(),
            series,
            field: name(&rt, rt.alloc(), "v"),
        },
        value: Value::Int(-3),
    };
    let copy = point.carry().expect(&rt, "a copy");
    assert!(&rt; copy == point);
}
