//! What needs no handle.

/// Where a byte of a text stands: its line, and its place among the line's bytes, both counted from 1.
#[repr(C)]
#[derive(Clone, Copy)]
pub struct XkcPosition {
    pub line: usize,
    pub column: usize,
}
