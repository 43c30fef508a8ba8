//! The joint between what a keymap's statements mean and the tables that an image holds.
#![tactic(auto)]

mod builder;
mod fault;
mod indicator_maps;
mod tables;

pub use builder::Builder;
pub use fault::BuildFault;
pub use indicator_maps::Indicator;
