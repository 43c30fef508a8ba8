//! A keymap's source by the names of model, layouts, variants and options: the rules file that is found in folders, the
//! source that its components make, and the list of names with their descriptions.
#![tactic(auto)]

mod answer;
mod asked;
mod environment;
mod fault;
mod files;
mod hints;
mod including;
mod lines;
mod list;
mod making;
mod near;

pub use asked::{Asked, Written};
pub use environment::{Environment, read_environment};
pub use fault::{NamesFault, RulesFault};
pub use files::open_folder;
pub use hints::{hints_of, warnings_of};
pub use lines::{Wanted, list_lines};
pub use list::Kind;
pub use making::{Made, Making, make_source};
