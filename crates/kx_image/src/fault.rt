//! Why bytes are no image.
use kx_tables::RecordKind;
use thiserror::Error;

/// Why bytes are no image. The faults of form, `Truncated` to `Length`, are tried in this order.
#[derive(Clone, Copy, PartialEq, Eq, Debug, Error)]
pub enum ImageFault {
    /// Fewer bytes than the header has, or than its counts call for.
    #[error("I1 Truncated")]
    Truncated,
    /// Another file's first bytes.
    #[error("I2 Magic")]
    Magic,
    /// A version other than 1 and 2.
    #[error("I3 Version")]
    Version,
    /// More bytes than the counts call for.
    #[error("I4 Length")]
    Length,
    /// A record that breaks a rule: its kind, and its index counted from 0.
    #[error("I5 BadRecord {0} {1}")]
    BadRecord(RecordKind, u32),
}
