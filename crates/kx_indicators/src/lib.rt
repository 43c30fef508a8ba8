//! The indicators that a keymap's compat sections declare: by which modifiers and groups each is lit.
#![tactic(auto)]

mod blocks;
mod defaults;
mod fields;
mod indicator_map;
mod limits;
mod listing;
mod masks;
mod naming;
mod record;
mod states;
mod table;
mod values;

pub use indicator_map::IndicatorMap;
pub use limits::MOST_INDICATORS;
pub use listing::indicators;
pub use table::Indicators;
