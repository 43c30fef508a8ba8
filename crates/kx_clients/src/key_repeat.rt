//! What a key says of its repeating.

/// What a key says of its repeating.
#[derive(Clone, Copy, PartialEq, Eq)]
pub enum KeyRepeat {
    Yes,
    No,
    /// What is so where it says nothing.
    Default,
}
