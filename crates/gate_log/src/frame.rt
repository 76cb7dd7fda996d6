ghost use Rattle.std.specs.Prelude.{◌≡◌, ◌^◌, ◌≤◌, ◌++◌, ◌∷◌, [], length, IfOk};
ghost use Rattle.gate_log.specs.Records.{framed};

use std::alloc::{AllocError, Global};
use std::marker::Model;
use word_codec::crc32;

/// A record that is ready to be added to a log: its length and its checksum in 4 bytes each, its body, and the closed
/// gate behind it. A contract sees the body.
#[derive(Drop)]
pub struct Frame {
    bytes: Vec<u8>,
}

impl Model for Frame {
    ghost use Rattle.std.specs.Prelude.{ℕ, List};
    ghost use Rattle.gate_log.specs.Frame.{IsFrame, body_in};

    ghost Value = { List ℕ };

    ghost view = { λ f. body_in f.bytes.items };

    ghost invariant = { λ f. IsFrame f.bytes.items };
}

impl Frame {
    /// Frames the body of a record, at most 2^30 bytes. This is what takes memory of adding a record.
    pub fn new(alloc: Global, body: &[u8]) -> Result<Frame, AllocError>
        requires { length body.now ≤ 2 ^ 30 }
        ensures { IfOk result (λ frame. frame ≡ body.now) }
    {
        let bytes = frame_record(alloc, body)?;
        Ok(Frame { bytes })
    }

    /// The frame's bytes, which are written behind a gate.
    pub(crate) fn bytes(&self) -> &[u8]
        ensures bytes { result.now ≡ framed self.now ++ 0 ∷ [] }
        ensures small { length self.now ≤ 2 ^ 30 }
    {
        &self.bytes
    }
}

fn frame_record(alloc: Global, body: &[u8]) -> Result<Vec<u8>, AllocError>
    requires { length body.now ≤ 2 ^ 30 }
    ensures { IfOk result (λ bytes. bytes.items ≡ framed body.now ++ 0 ∷ []) }
{
    let mut bytes = Vec::with_capacity(alloc, body.len() + 9)?;
    bytes.extend_from_slice(&(body.len() as u32).to_be_bytes())?;
    bytes.extend_from_slice(&crc32(body).to_be_bytes())?;
    bytes.extend_from_slice(body)?;
    bytes.push(0)?;
    Ok(bytes)
}
