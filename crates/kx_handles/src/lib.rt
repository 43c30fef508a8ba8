//! What C holds: a keymap, a keyboard, a follower and names of keysyms, each behind a handle of one pointer, and the tables that
//! a keymap shares with its keyboards.
#![tactic(auto)]

mod follower;
mod keyboard;
mod keymap;
mod names;
mod shared_follower;
mod shared_keyboard;
mod tables;

pub use follower::FollowerHandle;
pub use keyboard::KeyboardHandle;
pub use keymap::KeymapHandle;
pub use names::NamesHandle;
pub use shared_follower::SharedFollower;
pub use shared_keyboard::SharedKeyboard;
pub use tables::{OpenFault, SharedTables};
