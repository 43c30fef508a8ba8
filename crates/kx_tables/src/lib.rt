//! The resolved tables of a keymap: their rows, what makes them sound, and the keymap that they show.
#![tactic(auto)]

mod check;
mod owned;
mod range;
mod rows;
mod tables;

pub use check::{Broken, RecordKind, check as check_tables};
pub use owned::{Owned, RawTables};
pub use range::wrap_group;
pub use rows::{
    Action, CellRow, EntryRow, GroupChange, GroupNameRow, GroupRow, IndicatorRow, KeyRow, Range,
    States, TypeRow,
};
pub use tables::{Counts, Rows, Tables, most_groups};
