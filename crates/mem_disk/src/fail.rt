ghost use Rattle.std.specs.Prelude.{◌≡◌};
ghost use Rattle.mem_disk.specs.Calls.{is_at, read_of, write_of};

/// A call that fails, by its place. Places count from 0.
#[derive(Clone, Copy, Debug, PartialEq, Eq)]
pub enum Fail {
    /// The call of the disk itself at this place. `close` and `drop_writer` can't fail and have no place.
    Disk(u64),
    /// The read at the second place, of the reader that the disk's call at the first place handed out.
    Reader(u64, u64),
    /// The call at the second place, of the writer that the disk's call at the first place handed out.
    Writer(u64, u64),
}

impl Fail {
    /// Whether it names the disk's call at this place.
    pub(crate) fn is_at(&self, place: u64) -> bool
        ensures { result ≡ is_at place self.now }
    {
        match self {
            Fail::Disk(at) => *at == place,
            Fail::Reader(..) | Fail::Writer(..) => false,
        }
    }

    /// The place of the call that it names of the reader that the disk's call at `maker` handed out.
    pub(crate) fn read_of(&self, maker: u64) -> Option<u64>
        ensures { result ≡ read_of maker self.now }
    {
        match self {
            Fail::Reader(from, at) if *from == maker => Some(*at),
            _ => None,
        }
    }

    /// The same of a writer.
    pub(crate) fn write_of(&self, maker: u64) -> Option<u64>
        ensures { result ≡ write_of maker self.now }
    {
        match self {
            Fail::Writer(from, at) if *from == maker => Some(*at),
            _ => None,
        }
    }
}
