//! The group of a key for an effective group.
ghost use Rattle.std.specs.Prelude.{◌≡◌, ◌<◌, ◌≤◌};
ghost use Rattle.kx_tables.specs.Range.{in_range};

use crate::rows::Range;

/// The group of a key with `groups` groups, at least 1, that stands for the effective group `group`.
/// Groups are counted from 0; `group` may be any number.
pub fn wrap_group(group: i64, groups: u8, range: Range) -> u8
    requires { 1 ≤ groups }
    ensures value { result ≡ in_range group groups range }
    ensures below { result < groups }
{
    let count = i64::from(groups);
    if 0 <= group && group < count {
        return group as u8;
    }
    match range {
        Range::Wrap => group.rem_euclid(count) as u8,
        Range::Clamp => { if group < 0 { 0 } else { groups - 1 } }
        Range::Redirect(to) => { if to < groups { to } else { 0 } }
    }
}
