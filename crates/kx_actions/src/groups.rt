//! The group that an action names.
ghost use Rattle.std.specs.Prelude.{◌≡◌};
ghost use Rattle.kx_actions.specs.Groups.{absolute, relative};

use crate::action::ActionGroup;
use kx_basics::MOST_GROUPS;
use kx_parse::Sign;
use kx_tables::GroupChange;

/// The group of a number, counted from 1.
pub(crate) fn absolute(number: u64) -> Option<ActionGroup>
    ensures { result ≡ absolute number }
{
    if 0 < number && number <= u64::from(MOST_GROUPS) {
        Some(ActionGroup::of(GroupChange::Absolute((number - 1) as u8)))
    } else {
        None
    }
}

/// So many groups on.
pub(crate) fn relative(sign: Sign, number: u32) -> Option<ActionGroup>
    ensures { result ≡ relative sign number }
{
    if number > u32::from(MOST_GROUPS) {
        return None;
    }
    let by = number as i8;
    match sign {
        Sign::Plus => Some(ActionGroup::of(GroupChange::Relative(by))),
        Sign::Minus => Some(ActionGroup::of(GroupChange::Relative(-by))),
    }
}
