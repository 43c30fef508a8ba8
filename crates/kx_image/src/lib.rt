//! The image of a keymap: its bytes, how they are written, opened in place, and brought to the newest version.
#![tactic(auto)]

mod canonical;
mod fault;
mod header;
mod layout;
mod numbers;
mod owned;
mod records;
mod shape;
mod upgrading;
mod view;
mod writer;

pub use fault::ImageFault;
pub use owned::OwnedView;
pub use upgrading::{UpgradeFault, upgrade};
pub use view::{View, one_content};
pub use writer::write;
