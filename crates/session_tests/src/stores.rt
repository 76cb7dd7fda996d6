ghost use Rattle.std.specs.Prelude.{Contains, IfSome};

use line_protocol::read_batch;
use point_model::{Need, PointCursor, TagCond, TagTest, TagText};
use std::alloc::Global;
use std::test::Fail;
use store_trait::{DeleteFault, ListView, PlainStore, Store, ViewFault, WriteFault};
use tsdb_types::{Name, Time};

// The answer to lines of writing, which spell a batch.
fn write(alloc: Global, store: &mut PlainStore, lines: &str) -> Option<Result<u64, WriteFault>> {
    let batch = read_batch(alloc, lines.as_bytes(), Time::default()).ok()?;
    Some(store.write(&batch))
}

fn need(alloc: Global, measurement: &str, tags: TagCond) -> Option<Need> {
    Some(Need {
        measurement: Name::new(alloc, measurement).ok()?,
        tags,
        from: Time::new(1)?,
        to: Time::new(100)?,
        descending: false,
    })
}

// The series and the field of a key, with a space between them.
fn key_of(alloc: Global, view: &ListView, place: usize) -> Result<String, Fail> {
    let mut text = String::new(alloc);
    if let Some(key) = view.keys().get(place) {
        text.push_str(key.0.text())?;
        text.push(' ')?;
        text.push_str(key.1.as_str())?;
    }
    Ok(text)
}

fn begin(store: &mut PlainStore, need: &Need) -> Option<ListView>
    ensures { IfSome result (λ _. Contains store.new.out 0) }
{
    match store.begin_view(need) {
        Ok(view) => Some(view),
        Err(_) => None,
    }
}

#[test]
fn view_lists_the_series_that_meet_the_condition(rt: HostRuntime) -> Result<(), Fail> {
    let alloc = rt.alloc();
    let mut store = PlainStore::new(alloc, 0);
    let lines = "cpu,host=a v=1i 1\ncpu,host=b,zone=z v=2i 1\ncpu v=3i 1\ncpu,host=a\\ b v=4i 1";
    assert_eq!(rt; write(alloc, &mut store, lines), Some(Ok(1)));
    let rows = [
        ("a", 1, "cpu,host=a v"),
        ("", 1, "cpu v"),
        ("a b", 1, "cpu,host=a\\ b v"),
        ("c", 0, ""),
    ];
    for (host, count, first) in rows {
        let key = Name::new(alloc, "host").expect(&rt, "a name");
        let text = TagText::new(String::from_str(alloc, host)?);
        let tags = TagCond::new(alloc, TagTest::Eq(key, text))?;
        let need = need(alloc, "cpu", tags).expect(&rt, "a need");
        let view = begin(&mut store, &need).expect(&rt, "a view");
        assert_eq!(rt; view.keys().len(), count);
        assert_eq!(rt; key_of(alloc, &view, 0)?.as_str(), first);
        // The names are those of the measurement, whichever series meet the condition.
        assert_eq!(rt; view.names().tag_keys.as_slice().len(), 2);
        store.end_view(view);
    }
    Ok(())
}

#[test]
fn faults_are_told_in_one_line(rt: HostRuntime) -> Result<(), Fail> {
    let alloc = rt.alloc();
    let text = format!(in alloc;
        "{}; {}; {}",
        WriteFault::SeriesFull { held: 4 },
        ViewFault::TooManyViews { out: 2 },
        DeleteFault::HistoryFull
    )?;
    assert_eq!(rt;
        text.as_str(),
        "4 series are held; 2 views are out; the last number is given"
    );
    Ok(())
}
