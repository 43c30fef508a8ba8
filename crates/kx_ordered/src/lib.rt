//! Tables that find a key by its order, in the logarithm of how many keys there are, whatever the keys are: no source can
//! choose keys that are slow to find.
#![tactic(auto)]

mod by_text;
mod name_key;
mod ordered;
mod ordered_set;
mod owned_name;
mod short_name;
mod sorted_numbers;
mod table_key;

pub use name_key::NameKey;
pub use ordered::Ordered;
pub use ordered_set::OrderedSet;
pub use owned_name::OwnedName;
pub use short_name::ShortName;
pub use sorted_numbers::SortedNumbers;
pub use table_key::TableKey;
