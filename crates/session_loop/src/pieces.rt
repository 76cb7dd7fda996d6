//! Parts of a text.
ghost use Rattle.std.specs.Prelude.{◌≡◌, ◌≢◌, ◌≤◌, ◌++◌, ◌∷◌, [], List, ℕ, length, take, MatchOption};
ghost use Rattle.session_model.specs.Readable.{Lacks};
ghost use Rattle.session_loop.specs.Cuts.{CutsAt};

use memchr::memchr;

/// The parts round the first such byte.
pub fn cut(text: &[u8], byte: u8) -> Option<(&[u8], &[u8])>
    ensures { MatchOption result (Lacks byte text.now) (λ parts. CutsAt byte text.now parts.0.now parts.1.now) }
{
    let Some(at) = memchr(byte, text) else {
        return None;
    };
    let (front, rest) = text.split_at(at);
    let (_, back) = rest.split_at(1);
    Some((front, back))
}

/// What stands behind these bytes at the beginning.
pub fn behind<'a>(text: &'a [u8], front: &[u8]) -> Option<&'a [u8]>
    ensures { MatchOption result ((rest : List ℕ) → text.now ≢ front.now ++ rest) (λ rest. text.now ≡ front.now ++ rest.now) }
{
    text.strip_prefix(front)
}

/// What stands before this byte at the end.
pub fn before_last(text: &[u8], byte: u8) -> Option<&[u8]>
    ensures { MatchOption result ((front : List ℕ) → text.now ≢ front ++ byte ∷ []) (λ front. text.now ≡ front.now ++ byte ∷ []) }
{
    match text {
        [front @ .., last] if *last == byte => Some(front),
        _ => None,
    }
}

/// The first bytes, so many.
pub fn front(bytes: &[u8], count: usize) -> &[u8]
    requires { count ≤ length bytes.now }
    ensures { result.now ≡ take count bytes.now }
{
    let (front, _) = bytes.split_at(count);
    front
}
