ghost use Rattle.std.specs.Prelude.{◌≡◌, IfSome, IfNone};
ghost use Rattle.index_file.specs.Faults.{HasNoHead, IsFramed};
ghost use Rattle.index_file.specs.Format.{front_of};

use fixed_width::take_u32;

/// The letters `TSIP` and the version, with which a file begins.
pub const HEAD: [u8; 5] = [0x54, 0x53, 0x49, 0x50, 0x01];

/// What stands around the measurements of a file.
#[derive(Drop)]
pub struct Frame<'a> {
    /// All bytes before the checksum.
    pub front: &'a [u8],
    pub count: u32,
    /// Where the measurements stand.
    pub body: &'a [u8],
    pub stored: u32,
}

/// The parts of a file. `None` where it has another head or is too short.
pub fn framed(bytes: &[u8]) -> Option<Frame<'_>>
    ensures found { IfSome result (λ frame. IsFramed frame.count frame.body.now frame.stored bytes.now) }
    ensures front { IfSome result (λ frame. frame.front.now ≡ front_of frame.count frame.body.now) }
    ensures none { IfNone result (HasNoHead bytes.now) }
{
    let behind = bytes.strip_prefix(&HEAD)?;
    if behind.len() < 8 {
        return None;
    }
    let (front, _sum) = bytes.split_at(bytes.len() - 4);
    let (inner, sum) = behind.split_at(behind.len() - 4);
    let (count, body) = take_u32(inner)?;
    let (stored, _end) = take_u32(sum)?;
    Some(Frame {
        front,
        count,
        body,
        stored,
    })
}
