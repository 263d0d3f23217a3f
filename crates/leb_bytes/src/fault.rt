// Why no number was read.
use thiserror::Error;

/// Why no number was read.
#[derive(Clone, Copy, Debug, PartialEq, Eq, Error)]
pub enum LebFault {
    /// The window ends before the number does.
    #[error("the bytes end inside a number")]
    Ends,
    /// The number goes on past the most bytes that its width allows.
    #[error("the number has too many bytes")]
    TooLong,
    /// The last byte's bits past the width are not 0, or for a signed number no copies of the sign.
    #[error("unused bits of the number are set")]
    Unused,
}
