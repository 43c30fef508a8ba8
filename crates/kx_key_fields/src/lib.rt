//! The fields of a key statement: the types of its groups, its own type, its virtual modifiers, and what becomes of groups that it
//! doesn't have.
#![tactic(auto)]

mod attributes;
mod cells;
mod defaults;
mod given;
mod group_types;
mod key_range;
mod masks;
mod reading;
mod statement;
mod truths;
mod words;

pub use attributes::KeyAttributes;
pub use cells::{AttributeCell, AttributeValue};
pub use defaults::KeyDefaults;
pub use statement::read_settings;
pub use words::{is_attribute_word, is_group_name, is_key_word, is_list_word, usual_words};
