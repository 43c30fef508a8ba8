//! The lines that answer events are read from, and written as: sources and events as they are read, answers as they are written.
#![tactic(auto)]

pub mod answer;
pub mod event;
pub mod fault;
pub mod input;
mod listing;
pub mod locating;
pub mod source;
mod state_text;
pub mod tails;
