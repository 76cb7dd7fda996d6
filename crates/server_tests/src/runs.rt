//! Runs of the program over a desk in memory that holds one client.
use mem_disk::MemDisk;
use session_io::{Client, Closed, Desk, MemClock, MemDesk, MemSink, MemSource, Word};
use std::alloc::{AllocError, Global};
use std::random::RandomSource;
use std::sync::Wait;
use std::thread::Threads;
use tsdb_types::Time;
use tsm_server::{OpenGate, tsmd};

/// What a run answered, printed and wrote to its client.
#[derive(Drop)]
pub(crate) struct Outcome {
    pub(crate) status: u8,
    pub(crate) printed: String,
    pub(crate) replies: String,
}

/// A desk that holds one client, of `in` and `out`, whose reads and writes at these places fail.
pub(crate) fn desk(
    alloc: Global,
    input: &str,
    failing_reads: &[u64],
    failing_writes: &[u64],
) -> Result<MemDesk<MemDisk>, AllocError> {
    desk_at(alloc, input, failing_reads, failing_writes, Vec::new(alloc))
}

/// The same, where the client's clock tells these moments and then the last of them.
pub(crate) fn desk_at(
    alloc: Global,
    input: &str,
    failing_reads: &[u64],
    failing_writes: &[u64],
    moments: Vec<Time>,
) -> Result<MemDesk<MemDisk>, AllocError> {
    let client = Client {
        source: MemSource::new(
            input.as_bytes().to_vec(alloc)?,
            failing_reads.to_vec(alloc)?,
        ),
        sink: MemSink::new(alloc, failing_writes.to_vec(alloc)?),
        clock: MemClock::new(moments),
    };
    let names = (
        String::from_str(alloc, "in")?,
        String::from_str(alloc, "out")?,
    );
    let clients = vec![in alloc; (names.0, names.1, client)]?;
    Ok(MemDesk::new(alloc, Vec::new(alloc), clients, Vec::new(alloc)))
}

pub(crate) fn words_of(alloc: Global, texts: &[&str]) -> Result<Vec<Word>, AllocError> {
    let mut words = Vec::new(alloc);
    for text in texts {
        words.push(Word {
            text: String::from_str(alloc, text)?,
        })?;
    }
    Ok(words)
}

/// Runs the program with these words over the desk.
pub(crate) fn run<R: RandomSource + Threads + Wait + Sync>(
    rt: &R,
    alloc: Global,
    texts: &[&str],
    mut desk: MemDesk<MemDisk>,
) -> Result<Outcome, AllocError> {
    let words = words_of(alloc, texts)?;
    let mut out = MemSink::new(alloc, Vec::new(alloc));
    let status = tsmd(rt, alloc, &words, &mut desk, &mut out, &OpenGate);
    let mut replies = String::new(alloc);
    for closed in &desk.into_closed() {
        if let Closed::Client(client, _) = closed {
            replies.push_str(text_of(client.sink.bytes()))?;
        }
    }
    let printed = String::from_str(alloc, text_of(out.bytes()))?;
    Ok(Outcome {
        status,
        printed,
        replies,
    })
}

pub(crate) fn text_of(bytes: &[u8]) -> &str {
    std::str::from_utf8(bytes).unwrap_or("no text")
}
