//! The clock, source and sink of the system.
ghost use Rattle.std.specs.Prelude.{length};
ghost use Rattle.std.specs.Io.{ReadsAtMost, WritesAtMost};

use session_io::{Clock, HostClock, HostSink, HostSource, Sink, Source};
use shard_disk::{Fault, Trouble};
use std::fs::{self, File};
use std::io::{self, ErrorKind, Read, Write};
use std::test::Fail;
use std::time::Duration;
use std::{env, process, rt};

/// A clock of the system that stands still.
#[derive(Drop)]
struct Still {
    since_1970: Duration,
}

impl rt::Clock for Still {
    fn monotonic(&self) -> io::Result<Duration> {
        Ok(self.since_1970)
    }

    fn since_1970(&self) -> io::Result<Duration> {
        Ok(self.since_1970)
    }
}

// A moment is told in nanoseconds; one that is no time is the last one told.
#[test]
fn a_clock_counts_nanoseconds(rt: HostRuntime) -> Result<(), Fail> {
    let cases = [
        (0, 0, 0),
        (1_577_836_800, 123_456_789, 1_577_836_800_123_456_789),
        (9_223_372_036, 854_775_806, 9_223_372_036_854_775_806),
        (9_223_372_036, 854_775_807, 0),
        (10_000_000_000, 0, 0),
    ];
    for (seconds, nanoseconds, told) in cases {
        let mut clock = HostClock::new(Still {
            since_1970: Duration::new(seconds, nanoseconds),
        });
        assert_eq!(rt; clock.now().get(), told);
    }
    let mut clock = HostClock::new(rt);
    assert!(rt; clock.now().get() > 1_577_836_800_000_000_000);
    Ok(())
}

/// What the system does at one call: it moves so many bytes, or fails.
#[derive(Drop)]
struct Device {
    moves: Option<usize>,
}

impl Read for Device {
    fn read(&mut self, buf: &mut [u8]) -> io::Result<usize> {
        match self.moves {
            Some(count) if count <= buf.len() => {
                buf[..count].fill(b'r');
                Ok(count)
            }
            _ => Err(io::Error::from(ErrorKind::Other)),
        }
    }
}

impl Write for Device {
    fn write(&mut self, buf: &[u8]) -> io::Result<usize> {
        match self.moves {
            Some(count) if count <= buf.len() => Ok(count),
            _ => Err(io::Error::from(ErrorKind::Other)),
        }
    }

    fn flush(&mut self) -> io::Result<()> {
        Ok(())
    }
}

// What the system moved is what is told; a sink that takes nothing of some bytes has failed, a source that gives
// nothing has ended.
#[test]
fn devices_tell_what_the_system_did(rt: HostRuntime) -> Result<(), Fail> {
    let cases = [
        (Some(2), Ok(2), Ok(2), *b"rr."),
        (Some(3), Ok(3), Ok(3), *b"rrr"),
        (Some(0), Ok(0), Err(Trouble::Fault), *b"..."),
        (None, Err(Fault), Err(Trouble::Fault), *b"..."),
    ];
    for (moves, given, taken, bytes) in cases {
        let mut buffer = *b"...";
        assert_eq!(rt; HostSource::new(Device { moves }).read(&mut buffer), given);
        assert_eq!(rt; buffer, bytes);
        assert_eq!(rt; HostSink::new(Device { moves }).write(b"abc"), taken);
    }
    Ok(())
}

#[test]
fn a_file_gives_back_what_it_took(rt: HostRuntime) -> Result<(), Fail> {
    let alloc = rt.alloc();
    let name = format!(in alloc; "tsmd_devices_{}", process::id(rt.process()))?;
    let path = env::temp_dir(&rt)?.join(alloc, name)?;
    let mut sink = HostSink::new(File::create(&rt, path.as_path())?);
    assert_eq!(rt; sink.write(b"abc"), Ok(3));
    assert_eq!(rt; sink.write(b"de"), Ok(2));
    drop(sink);
    let mut source = HostSource::new(File::open(&rt, path.as_path())?);
    let mut buffer = [0; 8];
    assert_eq!(rt; source.read(&mut buffer), Ok(5));
    assert_eq!(rt; buffer, *b"abcde\0\0\0");
    assert_eq!(rt; source.read(&mut buffer), Ok(0));
    drop(source);
    fs::remove_file(&rt, path.as_path())?;
    Ok(())
}
