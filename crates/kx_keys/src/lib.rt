//! What keys are: their groups with the key type of each, their virtual modifiers, and what their levels do; and the rows that show
//! what a key type gives.
#![tactic(auto)]

pub mod given;
pub mod group_types;
pub mod interpreted_key;
pub mod places;
pub mod rows;
pub mod typing;
mod vmodmap;
