//! What is wrong with a keymap's text, in the words that stand there: what a person reads of a fault.
#![tactic(auto)]

mod actions;
mod explaining;
mod fields;
mod found;
mod front;
mod includes;
mod lexemes;
mod limits;
mod modifiers;
mod naming;
mod near;
mod plain;
mod quotes;
mod ranges;
mod shortening;
mod site;
mod slips;
mod syntax;
mod telling;
mod values;
mod wanted;

pub use actions::near_action;
pub use explaining::{Explanation, explain};
pub use kx_reach::{Text, Texts};
pub use near::Nearest;
pub use plain::{place_of, plain_message};
pub use quotes::{Quotation, quoted, write_shown};
pub use telling::Telling;
