//! That no two records of a kind have one name.
ghost use Rattle.std.specs.Prelude.{OnOk, IfErr};
ghost use Rattle.kx_tables.specs.Broken.{Breaks};
ghost use Rattle.kx_tables.specs.Content.{type_name, key_name, indicator_name};
ghost use Rattle.kx_tables.specs.SoFar.{NamesAreNew};

use super::distinct::{IndicatorNames, KeyNames, TypeNames, check_names};
use super::{Broken, RecordKind};
use crate::tables::Rows;

/// Checks that no two types have one name.
pub fn check_type_names<R: Rows>(rows: &R) -> Result<(), Broken>
    ensures ok { OnOk result (NamesAreNew (R.content rows.now).types
        (type_name (R.content rows.now))) }
    ensures broken { IfErr result (λ b. Breaks (R.content rows.now) b.part b.index) }
{
    check_names(&TypeNames(rows), rows.counts().types, RecordKind::KeyType)
}

/// Checks that no two keys have one name.
pub fn check_key_names<R: Rows>(rows: &R) -> Result<(), Broken>
    ensures ok { OnOk result (NamesAreNew (R.content rows.now).keys
        (key_name (R.content rows.now))) }
    ensures broken { IfErr result (λ b. Breaks (R.content rows.now) b.part b.index) }
{
    check_names(&KeyNames(rows), rows.counts().keys, RecordKind::Key)
}

/// Checks that no two indicators have one name.
pub fn check_indicator_names<R: Rows>(rows: &R) -> Result<(), Broken>
    ensures ok { OnOk result (NamesAreNew (R.content rows.now).indicators
        (indicator_name (R.content rows.now))) }
    ensures broken { IfErr result (λ b. Breaks (R.content rows.now) b.part b.index) }
{
    check_names(
        &IndicatorNames(rows),
        rows.counts().indicators,
        RecordKind::Indicator,
    )
}
