//! The interpretations that a keymap's compat sections declare, and which one is chosen for a keysym.
#![tactic(auto)]

mod action;
mod bucket;
mod choice;
mod defaults;
mod fields;
mod index;
mod interpretation;
mod interpretation_match;
mod listing;
mod modifier;
mod predicates;
mod record;
mod statements;
mod values;

pub use action::GivenAction;
pub use index::Interpretations;
pub use interpretation::Interpretation;
pub use interpretation_match::{InterpretationMatch, WantedKeysym};
pub use listing::interpretations;
pub use modifier::GivenModifier;
pub use statements::{FileContext, WrittenInterpretation, interpretation_in, read_match};
