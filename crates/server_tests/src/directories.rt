//! Runs over a directory in memory: what was accepted is there when an image of the directory is opened again, and a directory with a
//! changed bit is refused with its place.
ghost use Rattle.std.specs.Prelude.{All, IfOk};
ghost use Rattle.session_io.specs.MemDesks.{IsFreshEntry};

use crate::runs::{text_of, words_of};
use mem_disk::MemDisk;
use session_io::{Client, Closed, MemClock, MemDesk, MemSink, MemSource};
use shard_disk::{Disk, Trouble, Writer};
use std::alloc::{AllocError, Global};
use std::random::RandomSource;
use std::sync::Wait;
use std::test::Fail;
use std::thread::Threads;
use tsm_server::{OpenGate, tsmd};

/// A client under the names of its input and its output.
pub(crate) type Entry = (String, String, Client<MemSource, MemSink, MemClock>);

/// What a run answered, printed and replied, and an image of the directory that it left, where it closed one.
#[derive(Drop)]
pub(crate) struct Left {
    pub(crate) status: u8,
    pub(crate) printed: String,
    /// What each client was replied, in their order.
    pub(crate) replies: Vec<String>,
    pub(crate) image: Option<MemDisk>,
}

impl Left {
    /// What the client at this place was replied.
    pub(crate) fn told(&self, who: usize) -> &str {
        match self.replies.get(who) {
            Some(text) => text.as_str(),
            None => "no client",
        }
    }

    /// An image of the directory that it left.
    pub(crate) fn into_image(self) -> Option<MemDisk> {
        let Left {
            status: _,
            printed: _,
            replies: _,
            image,
        } = self;
        image
    }
}

/// A client with this input.
pub(crate) fn client(
    alloc: Global,
    input: &str,
    output: &str,
    requests: &str,
) -> Result<Entry, AllocError>
    ensures { IfOk result IsFreshEntry }
{
    let client = Client {
        source: MemSource::new(requests.as_bytes().to_vec(alloc)?, Vec::new(alloc)),
        sink: MemSink::new(alloc, Vec::new(alloc)),
        clock: MemClock::new(Vec::new(alloc)),
    };
    let input = String::from_str(alloc, input)?;
    let output = String::from_str(alloc, output)?;
    Ok((input, output, client))
}

/// Runs the program with these words and clients, where `db` is an image of the disk.
pub(crate) fn run<R: RandomSource + Threads + Wait + Sync>(
    rt: &R,
    alloc: Global,
    texts: &[&str],
    disk: &MemDisk,
    clients: Vec<Entry>,
) -> Result<Left, Fail>
    requires { All IsFreshEntry clients.items }
{
    let disk = disk.image(&[])?;
    let path = String::from_str(alloc, "db")?;
    let mut desk = MemDesk::new(
        alloc,
        vec![in alloc; (path, disk)]?,
        clients,
        Vec::new(alloc),
    );
    let words = words_of(alloc, texts)?;
    let mut out = MemSink::new(alloc, Vec::new(alloc));
    let status = tsmd(rt, alloc, &words, &mut desk, &mut out, &OpenGate);
    left_of(alloc, status, text_of(out.bytes()), &desk.into_closed())
}

/// What a run left that ended so and printed this.
fn left_of(
    alloc: Global,
    status: u8,
    printed: &str,
    all: &[Closed<MemDisk>],
) -> Result<Left, Fail> {
    let mut left = Left {
        status,
        printed: String::from_str(alloc, printed)?,
        replies: Vec::new(alloc),
        image: None,
    };
    for closed in all {
        match closed {
            Closed::Client(client, _) => {
                let replies = String::from_str(alloc, text_of(client.sink.bytes()))?;
                left.replies.push(replies)?;
            }
            Closed::Dir(disk) => left.image = Some(disk.image(&[])?),
        }
    }
    Ok(left)
}

/// Runs `shell db` with this input.
pub(crate) fn shell<R: RandomSource + Threads + Wait + Sync>(
    rt: &R,
    alloc: Global,
    disk: &MemDisk,
    input: &str,
) -> Result<Left, Fail> {
    let clients = vec![in alloc; client(alloc, "-", "-", input)?]?;
    run(rt, alloc, &["shell", "db"], disk, clients)
}

#[test]
fn a_directory_is_opened_again(rt: HostRuntime) -> Result<(), Fail> {
    let disk = MemDisk::new(rt.alloc(), Vec::new(rt.alloc()));
    let input = "INSERT cpu v=1i 10\nSELECT v FROM cpu\n";
    let first = shell(&rt, rt.alloc(), &disk, input)?;
    assert_eq!(rt; (first.status, first.printed.as_str()), (0, ""));
    assert_eq!(rt; first.told(0), "ok 1\nat 1\nname: cpu\ntime v\n10 1\n.\n");
    let Some(disk) = first.into_image() else {
        assert!(rt; false, "the directory was closed");
        return Ok(());
    };
    let input = "INSERT cpu v=true 20\nINSERT cpu v=2i 20\nSELECT v FROM cpu\n";
    let second = shell(&rt, rt.alloc(), &disk, input)?;
    assert_eq!(rt; (second.status, second.printed.as_str()), (0, ""));
    assert_eq!(rt;
        second.told(0),
        "error T1 TypeConflict v integer at 1\nok 2\nat 2\nname: cpu\ntime v\n10 1\n20 2\n.\n"
    );
    Ok(())
}

/// Puts a file in.
fn put<D: Disk>(disk: &mut D, bytes: &[u8]) -> Result<u32, Trouble> {
    let mut writer = disk.begin()?;
    if writer.append(bytes).is_err() || writer.finish().is_err() {
        disk.drop_writer(writer);
        return Err(Trouble::Fault);
    }
    match disk.adopt(writer) {
        Ok(no) => Ok(no),
        Err((writer, trouble)) => {
            disk.drop_writer(writer);
            Err(trouble)
        }
    }
}

/// A disk with the same three files, where the first bit of the body of this one's first record is another.
fn with_changed_bit(alloc: Global, disk: &MemDisk, changed: u32) -> Result<MemDisk, Fail> {
    let mut other = MemDisk::new(alloc, Vec::new(alloc));
    for no in 0..3 {
        let mut bytes = match disk.bytes(no) {
            Some(bytes) => bytes.to_vec(alloc)?,
            None => Vec::new(alloc),
        };
        if no == changed {
            change_bit(&mut bytes);
        }
        put(&mut other, &bytes)?;
    }
    Ok(other)
}

// The body stands behind the gate, its length and its sum.
fn change_bit(bytes: &mut Vec<u8>) {
    if let Some(byte) = bytes.get_mut(9) {
        *byte ^= 0x80;
    }
}

// The manifest, the series file and the first segment.
#[test]
fn a_changed_bit_is_told_with_its_place(rt: HostRuntime) -> Result<(), Fail> {
    let disk = MemDisk::new(rt.alloc(), Vec::new(rt.alloc()));
    let left = shell(&rt, rt.alloc(), &disk, "INSERT cpu v=1i 10\n")?;
    let Some(disk) = left.into_image() else {
        assert!(rt; false, "the directory was closed");
        return Ok(());
    };
    let lines = [
        "damaged 0 5 Sum\n",
        "damaged 1 5 Sum\n",
        "damaged 2 5 Sum\n",
    ];
    for (no, line) in (0..).zip(lines) {
        let changed = with_changed_bit(rt.alloc(), &disk, no)?;
        let left = shell(&rt, rt.alloc(), &changed, "SELECT v FROM cpu\n")?;
        assert_eq!(rt; (left.status, left.printed.as_str()), (2, line));
    }
    Ok(())
}
