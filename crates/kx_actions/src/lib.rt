//! The actions that keys and interpretations name: what their arguments say, under the defaults before them, and the rows
//! of tables that they become.
#![tactic(auto)]

mod action;
mod arguments;
mod defaults;
mod groups;
mod kinds;
mod meaning;
mod settings;
mod values;

pub use action::{ActionGroup, ActionMods, Affect, KeyAction};
pub use arguments::read;
pub use defaults::ActionDefaults;
pub use kinds::is_action_word;
pub use meaning::real_action;
