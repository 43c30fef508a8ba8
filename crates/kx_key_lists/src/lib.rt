//! The lists of a key statement by group and level: which group a list is given to, and what the lists of several statements give
//! together.
#![tactic(auto)]

mod groups;
mod key_lists;
mod levels;
mod merging;
mod placing;

pub use groups::read_group;
pub use key_lists::GroupLists;
pub use levels::{LevelValue, Levels};
pub use placing::{group_for, put_list};
