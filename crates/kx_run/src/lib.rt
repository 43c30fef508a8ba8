//! The running keyboard.
#![tactic(auto)]

mod choices;
mod counts;
mod direction;
mod follower;
mod group;
mod held;
mod index;
mod indicator_maps;
mod keyboard;
mod lookup;
mod player;
mod presses;
mod reply;

pub use direction::{Direction, Event};
pub use follower::Follower;
pub use held::HeldKey;
pub use player::Player;
pub use reply::{Components, Look, Reply};
