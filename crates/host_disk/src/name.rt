ghost use Rattle.std.specs.Prelude.{IfSome};
ghost use Rattle.host_disk.specs.Numbers.{IsNumbered};

/// The name of a file of a disk in its folder. All other names are left alone, whatever they are.
#[derive(Clone, Copy, Debug, PartialEq, Eq)]
pub enum Name {
    /// Ten decimal digits and `.tsd`: the file of this number, below 4294967295.
    File(u32),
    /// Ten decimal digits and `.tmp`: a file that isn't adopted.
    Unfinished(u64),
}

/// The name of a file of a disk that this text is.
pub(crate) fn name_of(text: &str) -> Option<Name>
    ensures { IfSome result IsNumbered }
{
    if let Some(digits) = text.strip_suffix(".tsd") {
        return match number_of(digits)?.try_into() {
            Ok(no) if no < u32::MAX => Some(Name::File(no)),
            _ => None,
        };
    }
    let digits = text.strip_suffix(".tmp")?;
    Some(Name::Unfinished(number_of(digits)?))
}

/// The number that ten decimal digits are.
fn number_of(digits: &str) -> Option<u64> {
    if digits.len() != 10 || !digits.bytes().all(|byte| byte.is_ascii_digit()) {
        return None;
    }
    digits.parse().ok()
}
