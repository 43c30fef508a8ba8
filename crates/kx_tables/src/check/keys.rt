//! Keys.
ghost use Rattle.std.specs.Prelude.{◌≡◌, ◌↔◌, ◌+◌, ℕ, IsTrue, IfOk, IfErr, length};
ghost use Rattle.kx_tables.specs.Broken.{Breaks};
ghost use Rattle.kx_tables.specs.Content.{type_names, key_names};
ghost use Rattle.kx_tables.specs.SoFar.{KeysAre, KeyNumbers};
ghost use Rattle.kx_tables.specs.Sound.{RangeHolds};

use super::{Broken, RecordKind};
use crate::rows::{KeyRow, Range};
use crate::tables::Rows;
use kx_basics::{GREATEST_CODE, MOST_GROUPS, MOST_NAME_BYTES};

/// Whether the group that a key redirects to is one of 32.
fn range_holds(range: Range) -> bool
    ensures { IsTrue result ↔ RangeHolds range }
{
    match range {
        Range::Wrap => true,
        Range::Clamp => true,
        Range::Redirect(to) => to <= 31,
    }
}

/// Whether a key's numbers fit, with so many groups and bytes of names before it.
fn is_numbered(row: KeyRow, groups: u64, names: u64) -> bool
    ensures { IsTrue result ↔ KeyNumbers row groups names }
{
    row.code <= GREATEST_CODE
        && range_holds(row.range)
        && row.groups <= MOST_GROUPS
        && usize::from(row.name_length) <= MOST_NAME_BYTES
        && u64::from(row.first_name) == names
        && u64::from(row.first_group) == groups
}

/// Checks the keys' numbers, and that their codes rise. The types' names are so many bytes; answers how
/// many they are with the keys' names.
pub fn check_keys<R: Rows>(rows: &R, before: u64) -> Result<u64, Broken>
    requires { before ≡ type_names (R.content rows.now) }
    ensures total { IfOk result (λ names.
        names ≡ type_names (R.content rows.now) + key_names (R.content rows.now)) }
    ensures ok { IfOk result (λ names. (next : ℕ)
        × KeysAre (R.content rows.now) (length (R.content rows.now).keys)
        (length (R.content rows.now).groups) names next) }
    ensures broken { IfErr result (λ b. Breaks (R.content rows.now) b.part b.index) }
{
    let counts = rows.counts();
    let mut groups = 0;
    let mut names = before;
    let mut next = 0;
    for index in 0..counts.keys {
        let row = rows.key_row(index);
        if !is_numbered(row, groups, names) || row.code < next {
            return Err(Broken {
                part: RecordKind::Key,
                index: u32::from(index),
            });
        }
        groups += u64::from(row.groups);
        names += u64::from(row.name_length);
        next = row.code + 1;
    }
    if groups != u64::from(counts.groups) {
        return Err(Broken::HEADER);
    }
    Ok(names)
}
