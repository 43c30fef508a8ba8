//! What can have a value in a key.
use crate::keysyms::Keysyms;
use kx_actions::KeyAction;
use kx_key_fields::{AttributeCell, AttributeValue};

/// What can have a value in a key; groups and levels are counted from 0.
#[derive(Clone, Copy, PartialEq, Eq)]
pub enum Cell {
    /// The keysyms of a group and a level.
    Keysyms(usize, usize),
    /// The action of a group and a level.
    Action(usize, usize),
    /// What is said of the key besides.
    Setting(AttributeCell),
}

/// The value of a cell.
#[derive(Drop)]
pub enum CellValue {
    Keysyms(Keysyms),
    Action(KeyAction),
    Setting(AttributeValue),
}
