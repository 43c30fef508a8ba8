//! Records by precedence: what the items of a body, includes among them, make of each record; and what the values of fields
//! say: words with a meaning, numbers after a word, and the faults of a value of another kind.
#![tactic(auto)]

mod faults;
mod fields;
mod gathering;
mod merging;
mod numbers;
mod placed;
mod plain;
mod records;
mod repeats;
mod replaced;
mod single;
mod words;

pub use faults::{bad_value, expression_of, unknown_field};
pub use fields::Fields;
pub use gathering::{Merged, merge};
pub use merging::merged_value;
pub use numbers::Counted;
pub use placed::Placed;
pub use plain::{Plain, PlainRecord};
pub use records::records_for;
pub use single::{Single, SingleValue, none_given, one_given};
pub use words::{lone_word, truth_named};
