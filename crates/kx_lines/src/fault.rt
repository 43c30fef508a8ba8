//! Why lines are answered no further.
use kx_image::ImageFault;
use kx_lex::Fault;
use thiserror::Error;

/// Why event lines are answered no further. Each prints as the line that a user sees, as `P3 Line 4`.
#[derive(Clone, Copy, Debug, PartialEq, Eq, Error)]
pub enum ReplayFault {
    /// A growth was refused.
    #[error("P1 Memory")]
    Memory,
    /// The bytes are no image.
    #[error("{0}")]
    Image(ImageFault),
    /// A line that is neither empty nor an event; the first such line, counted from 1.
    #[error("P3 Line {0}")]
    Line(u64),
    /// The reader failed, or gave more bytes than are read.
    #[error("P4 Read")]
    Read,
    /// The writer failed.
    #[error("P5 Write")]
    Write,
}

/// Why a session ended before its last line.
#[derive(Clone, Copy, Debug, PartialEq, Eq, Error)]
pub enum SessionFault {
    /// The source is refused.
    #[error("{0}")]
    Compile(Fault),
    /// The events are.
    #[error("{0}")]
    Replay(ReplayFault),
}
