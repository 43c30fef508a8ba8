//! Where a section stands.
/// Where a section stands: the number of its text, 0 for the source, and which of the text's sections it is, counted from 0.
#[derive(Clone, Copy, PartialEq, Eq)]
pub struct Place {
    pub file: u32,
    pub section: usize,
}
