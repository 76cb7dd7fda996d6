ghost use Rattle.std.specs.Prelude.{◌≡◌, ◌<◌, false, length, IfSome, IfNone};
ghost use Rattle.line_protocol.specs.Parts as spec;

use memchr::memchr;

// The front of a text up to the first of these bytes that no backslash stands before, and the rest from that byte on.
pub fn cut(text: &[u8], mark: u8) -> (&[u8], &[u8])
    ensures front { result.0.now ≡ spec.front mark false text.now }
    ensures rest { result.1.now ≡ spec.rest mark false text.now }
{
    let mut slash = false;
    for (at, byte) in text.iter().enumerate() {
        if *byte == mark && !slash {
            return text.split_at(at);
        }
        slash = *byte == b'\\';
    }
    text.split_at(text.len())
}

// The front of a text up to the first newline, and the rest from that newline on.
pub fn cut_line(text: &[u8]) -> (&[u8], &[u8])
    ensures front { result.0.now ≡ spec.line_front text.now }
    ensures rest { result.1.now ≡ spec.line_rest text.now }
{
    match memchr(b'\n', text) {
        Some(at) => text.split_at(at),
        None => text.split_at(text.len()),
    }
}

pub fn without_spaces(text: &[u8]) -> &[u8]
    ensures { result.now ≡ spec.unspaced text.now }
{
    let mut left = text;
    while let Some((b' ', rest)) = left.split_first() {
        left = rest;
    }
    left
}

// A line without the carriage return at its end and the spaces at both ends, but for one behind a backslash.
pub fn trimmed(line: &[u8]) -> &[u8]
    ensures { result.now ≡ spec.trimmed line.now }
{
    without_last_spaces(without_spaces(without_return(line)))
}

fn without_return(line: &[u8]) -> &[u8]
    ensures { result.now ≡ spec.without_return line.now }
{
    match line.split_last() {
        None => line,
        Some((last, rest)) => { if *last == b'\r' { rest } else { line } }
    }
}

fn without_last_spaces(text: &[u8]) -> &[u8]
    ensures { result.now ≡ spec.unspaced_end false text.now }
{
    let mut left = text;
    while let Some(rest) = without_last_space(left) {
        left = rest;
    }
    left
}

// `None` where no space is at the end, or one behind a backslash.
fn without_last_space(text: &[u8]) -> Option<&[u8]>
    ensures some { IfSome result (λ rest. (spec.unspaced_end false text.now ≡ spec.unspaced_end false rest.now) × (length rest.now < length text.now)) }
    ensures none { IfNone result (spec.unspaced_end false text.now ≡ text.now) }
{
    match text.split_last() {
        None => None,
        Some((last, rest)) => {
            if *last != b' ' {
                return None;
            }
            if ends_with_slash(rest) {
                return None;
            }
            Some(rest)
        }
    }
}

fn ends_with_slash(text: &[u8]) -> bool
    ensures { result ≡ spec.slashed false text.now }
{
    match text.split_last() {
        None => false,
        Some((last, _front)) => *last == b'\\',
    }
}
