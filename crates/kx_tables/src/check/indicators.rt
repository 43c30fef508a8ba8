//! Indicators and names of groups.
ghost use Rattle.std.specs.Prelude.{◌≡◌, ◌↔◌, ◌+◌, IsTrue, IfOk, OnOk, IfErr, length};
ghost use Rattle.kx_tables.specs.Broken.{Breaks};
ghost use Rattle.kx_tables.specs.Content.{type_names, key_names, indicator_names};
ghost use Rattle.kx_tables.specs.SoFar.{IndicatorsAre, IndicatorNumbers, GroupNamesAre, GroupNameNumbers};

use super::{Broken, RecordKind};
use crate::rows::{GroupNameRow, IndicatorRow};
use crate::tables::Rows;
use kx_basics::MOST_NAME_BYTES;

/// Whether an indicator's numbers fit, at this index and with so many bytes of names before it.
fn is_numbered(row: IndicatorRow, index: u16, names: u64) -> bool
    ensures { IsTrue result ↔ IndicatorNumbers row index names }
{
    index < 32
        && row.mod_states.mask() <= 15
        && row.group_states.mask() <= 15
        && usize::from(row.name_length) <= MOST_NAME_BYTES
        && u64::from(row.first_name) == names
}

/// Checks the indicators' numbers. The names of types and keys are so many bytes; answers how many they are with
/// the indicators'.
pub fn check_indicators<R: Rows>(rows: &R, before: u64) -> Result<u64, Broken>
    requires { before ≡ type_names (R.content rows.now) + key_names (R.content rows.now) }
    ensures total { IfOk result (λ names.
        names ≡ type_names (R.content rows.now) + key_names (R.content rows.now)
        + indicator_names (R.content rows.now)) }
    ensures ok { IfOk result (λ names.
        IndicatorsAre (R.content rows.now) (length (R.content rows.now).indicators) names) }
    ensures broken { IfErr result (λ b. Breaks (R.content rows.now) b.part b.index) }
{
    let mut names = before;
    for index in 0..rows.counts().indicators {
        let row = rows.indicator_row(index);
        if !is_numbered(row, index, names) {
            return Err(Broken {
                part: RecordKind::Indicator,
                index: u32::from(index),
            });
        }
        names += u64::from(row.name_length);
    }
    Ok(names)
}

/// Whether a group name's numbers fit, at this index of so many, and with so many bytes of names before it.
fn is_named(row: &GroupNameRow, index: u16, count: u16, names: u64) -> bool
    ensures { IsTrue result ↔ GroupNameNumbers row.now index count names }
{
    index < 32
        && usize::from(row.name_length) <= MOST_NAME_BYTES
        && u64::from(row.first_name) == names
        && (u32::from(index) + 1 != u32::from(count) || row.name_length > 0)
}

/// Checks the groups' names. The names of types, keys and indicators are so many bytes.
pub fn check_group_names<R: Rows>(rows: &R, before: u64) -> Result<(), Broken>
    requires { before ≡ type_names (R.content rows.now) + key_names (R.content rows.now)
        + indicator_names (R.content rows.now) }
    ensures ok { OnOk result (GroupNamesAre (R.content rows.now)
        (length (R.content rows.now).group_names) (length (R.content rows.now).names)) }
    ensures broken { IfErr result (λ b. Breaks (R.content rows.now) b.part b.index) }
{
    let counts = rows.counts();
    let mut names = before;
    for index in 0..counts.group_names {
        let row = rows.group_name_row(index);
        if !is_named(&row, index, counts.group_names, names) {
            return Err(Broken {
                part: RecordKind::GroupName,
                index: u32::from(index),
            });
        }
        names += u64::from(row.name_length);
    }
    if names != u64::from(counts.names) {
        return Err(Broken::HEADER);
    }
    Ok(())
}
