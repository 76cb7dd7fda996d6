//! Where a session tells the gate that it has come: at a view while this is out, and at a reply when all of it is written. Its source gives a byte at a
//! time, and its sink takes one.
use point_model::{Deletion, Need};
use session_io::{Gate, MemClock, MemSink, MemSource, Place, Sink, Source};
use session_loop::session;
use shard_disk::{Fault, Trouble};
use std::sync::atomic::{AtomicU64, Ordering};
use std::test::Fail;
use store_trait::{DeleteFault, ListView, PlainStore, Store, ViewFault, WriteFault};
use tsdb_types::Batch;

/// A store that notes how many of its views are out.
#[derive(Drop)]
struct NotingStore<'a> {
    inner: PlainStore,
    out: &'a AtomicU64,
}

impl<'a> Store for NotingStore<'a> {
    type View = ListView;

    ghost told = { λ s. ⟦<PlainStore as Store>⟧.told s.inner };

    ghost health = { λ s. ⟦<PlainStore as Store>⟧.health s.inner };

    fn write(&mut self, batch: &Batch) -> Result<u64, WriteFault> {
        self.inner.write(batch)
    }

    fn delete(&mut self, deletion: &Deletion) -> Result<u64, DeleteFault> {
        self.inner.delete(deletion)
    }

    fn begin_view(&mut self, need: &Need) -> Result<ListView, ViewFault> {
        let view = self.inner.begin_view(need)?;
        self.out.fetch_add(1, Ordering::SeqCst);
        Ok(view)
    }

    fn end_view(&mut self, view: ListView) {
        self.out.fetch_sub(1, Ordering::SeqCst);
        self.inner.end_view(view);
    }

    fn number(&mut self) -> u64 {
        self.inner.number()
    }
}

/// A source that gives a byte at a time.
#[derive(Drop)]
struct ShortSource {
    inner: MemSource,
}

impl Source for ShortSource {
    ghost given = { λ s. ⟦<MemSource as Source>⟧.given s.inner };

    ghost left = { λ s. ⟦<MemSource as Source>⟧.left s.inner };

    ghost ended = { λ s. ⟦<MemSource as Source>⟧.ended s.inner };

    ghost reads_left = { λ s. ⟦<MemSource as Source>⟧.reads_left s.inner };

    ghost health = { λ s. ⟦<MemSource as Source>⟧.health s.inner };

    fn read(&mut self, buffer: &mut [u8]) -> Result<usize, Fault> {
        let one = buffer.len().min(1);
        self.inner.read(&mut buffer[..one])
    }
}

/// A sink that takes a byte at a time and notes how many it took.
#[derive(Drop)]
struct NotingSink<'a> {
    inner: MemSink,
    taken: &'a AtomicU64,
}

impl<'a> Sink for NotingSink<'a> {
    ghost written = { λ s. ⟦<MemSink as Sink>⟧.written s.inner };

    ghost health = { λ s. ⟦<MemSink as Sink>⟧.health s.inner };

    ghost wants = { λ s. ⟦<MemSink as Sink>⟧.wants s.inner };

    fn write(&mut self, bytes: &[u8]) -> Result<usize, Trouble> {
        let one = bytes.len().min(1);
        self.taken.fetch_add(one as u64, Ordering::SeqCst);
        self.inner.write(&bytes[..one])
    }
}

/// A gate that notes what store and sink had noted when it was reached: a digit for each view, three for each reply.
#[derive(Drop)]
struct NotingGate<'a> {
    out: &'a AtomicU64,
    taken: &'a AtomicU64,
    views: AtomicU64,
    replies: AtomicU64,
}

impl<'a> Gate for NotingGate<'a> {
    fn reach(&self, who: u32, place: Place) {
        match (who, place) {
            (3, Place::View) => note(&self.views, 10, self.out),
            (3, Place::Reply) => note(&self.replies, 1000, self.taken),
            _ => note(&self.views, 10, self.taken),
        }
    }
}

fn note(notes: &AtomicU64, base: u64, now: &AtomicU64) {
    let before = notes.load(Ordering::SeqCst);
    let now = now.load(Ordering::SeqCst);
    notes.store(
        before.wrapping_mul(base).wrapping_add(now),
        Ordering::SeqCst,
    );
}

#[test]
fn the_gate_is_told_where_a_session_is(rt: HostRuntime) -> Result<(), Fail> {
    let alloc = rt.alloc();
    let (out, taken) = (AtomicU64::new(0), AtomicU64::new(0));
    let gate = NotingGate {
        out: &out,
        taken: &taken,
        views: AtomicU64::new(0),
        replies: AtomicU64::new(0),
    };
    let mut store = NotingStore {
        inner: PlainStore::new(alloc, 0),
        out: &out,
    };
    let input = b"INSERT cpu v=1i 10\n\nSELECT v FROM cpu\nAFTER 1";
    let mut source = ShortSource {
        inner: MemSource::new(input.to_vec(alloc)?, Vec::new(alloc)),
    };
    let mut sink = NotingSink {
        inner: MemSink::new(alloc, Vec::new(alloc)),
        taken: &taken,
    };
    let mut clock = MemClock::new(Vec::new(alloc));
    session(
        alloc,
        &mut store,
        &mut source,
        &mut sink,
        &mut clock,
        &gate,
        3,
    );
    assert_eq!(rt;
        sink.inner.bytes(),
        b"ok 1\nat 1\nname: cpu\ntime v\n10 1\n.\nat 1\n".as_slice()
    );
    // One view was reached while it was out; the replies have 5, 29 and 5 bytes.
    assert_eq!(rt; gate.views.load(Ordering::SeqCst), 1);
    assert_eq!(rt; gate.replies.load(Ordering::SeqCst), 5_034_039);
    Ok(())
}
