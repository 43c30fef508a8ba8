//! A box as its pointer, which a handle of C keeps.
#![tactic(auto)]

mod raw_box;

pub use raw_box::RawBox;
