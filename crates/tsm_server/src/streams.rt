//! What clients of the system read and write: files, pipes, terminals and the standard streams.
use std::fs::{File, Metadata, OpenOptions};
use std::io::{self, ErrorKind, Read, Stdin, Stdout, Write};
use std::os::unix::fs::MetadataExt;

/// The name of the standard input and of the standard output.
const STANDARD: &str = "-";

/// A file that is read, or the standard input. The first read empties the client's output first, where that is a regular file.
#[derive(Drop)]
pub struct Input {
    bytes: Bytes,
    empties: Option<File>,
}

#[derive(Drop)]
enum Bytes {
    File(File),
    Standard(Stdin),
}

impl Read for Input {
    fn read(&mut self, buffer: &mut [u8]) -> io::Result<usize> {
        if let Some(output) = &self.empties {
            output.set_len(0)?;
            self.empties = None;
        }
        match &mut self.bytes {
            Bytes::File(file) => file.read(buffer),
            Bytes::Standard(stdin) => stdin.read(buffer),
        }
    }
}

/// A file that is written, or the standard output. It keeps nothing back.
#[derive(Drop)]
pub enum Output {
    File(File),
    Standard(Stdout),
}

impl Write for Output {
    fn write(&mut self, bytes: &[u8]) -> io::Result<usize> {
        match self {
            Output::File(file) => file.write(bytes),
            Output::Standard(stdout) => stdout.write(bytes),
        }
    }

    fn flush(&mut self) -> io::Result<()> {
        match self {
            Output::File(file) => file.flush(),
            Output::Standard(stdout) => stdout.flush(),
        }
    }
}

/// A regular file of a client.
#[derive(Clone, Copy, PartialEq, Eq)]
struct Regular {
    device: u64,
    number: u64,
}

impl Regular {
    /// The file of this metadata; none where it isn't regular. A terminal or a pipe may be read and written.
    fn of(metadata: &Metadata) -> Option<Regular> {
        metadata.is_file().then_some(Regular {
            device: metadata.dev(),
            number: metadata.ino(),
        })
    }
}

/// The regular files that clients read and write. None that is written is another one of them.
#[derive(Drop)]
pub(crate) struct Streams {
    read: Vec<Regular>,
    written: Vec<Regular>,
}

impl Streams {
    /// No client has a file.
    pub(crate) fn new(rt: HostRuntime) -> Self {
        Streams {
            read: Vec::new(rt.alloc()),
            written: Vec::new(rt.alloc()),
        }
    }

    /// Opens an input and an output; the output is made where it isn't there, and only where the input is. An output that is one regular file
    /// with an input or another output is refused before anything is emptied.
    pub(crate) fn open(
        &mut self,
        rt: HostRuntime,
        input: &str,
        output: &str,
    ) -> io::Result<(Input, Output)> {
        let bytes = self.open_input(rt, input)?;
        let (output, empties) = self.open_output(rt, output)?;
        Ok((Input { bytes, empties }, output))
    }

    fn open_input(&mut self, rt: HostRuntime, name: &str) -> io::Result<Bytes> {
        if name == STANDARD {
            return Ok(Bytes::Standard(rt.stdin()));
        }
        let file = File::open(&rt, name)?;
        let metadata = file.metadata()?;
        if metadata.is_dir() {
            return Err(io::Error::from(ErrorKind::InvalidInput));
        }
        if let Some(regular) = Regular::of(&metadata) {
            if self.written.contains(&regular) {
                return Err(io::Error::from(ErrorKind::InvalidInput));
            }
            self.read.push(regular)?;
        }
        Ok(Bytes::File(file))
    }

    /// The output, and once more the file that is to be emptied.
    fn open_output(&mut self, rt: HostRuntime, name: &str) -> io::Result<(Output, Option<File>)> {
        if name == STANDARD {
            return Ok((Output::Standard(rt.stdout()), None));
        }
        let file = OpenOptions::new().write(true).create(true).open(&rt, name)?;
        let Some(regular) = Regular::of(&file.metadata()?) else {
            return Ok((Output::File(file), None));
        };
        if self.read.contains(&regular) || self.written.contains(&regular) {
            return Err(io::Error::from(ErrorKind::InvalidInput));
        }
        self.written.push(regular)?;
        let empties = file.try_clone()?;
        Ok((Output::File(file), Some(empties)))
    }
}
