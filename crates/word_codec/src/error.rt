use thiserror::Error;

/// Why the bytes do not begin with a number.
#[derive(Clone, Copy, Debug, Error, PartialEq, Eq)]
pub enum UvarintFault {
    /// The bytes end before the number does.
    #[error("the number is cut short")]
    Short,
    /// The number is spelled with more bytes than it needs, or has more than 64 bits.
    #[error("the number is spelled too long")]
    Long,
}
