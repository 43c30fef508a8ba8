//! What a person is told of a keymap's texts beside faults.

/// Which warnings are told.
#[derive(Clone, Copy, PartialEq, Eq)]
pub enum Telling {
    Nothing,
    /// Those of the source and of the author's files, and of installed files their counts.
    Own,
    /// Those of all files.
    All,
}
