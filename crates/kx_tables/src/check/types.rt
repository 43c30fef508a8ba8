//! Key types.
ghost use Rattle.std.specs.Prelude.{◌≡◌, ◌<◌, ◌↔◌, IsTrue, IfOk, IfErr, length, sum_by};
ghost use Rattle.kx_tables.specs.Broken.{Breaks};
ghost use Rattle.kx_tables.specs.Content.{type_names};
ghost use Rattle.kx_tables.specs.SoFar.{TypesAre, TypeNumbers};

use super::{Broken, RecordKind};
use crate::rows::TypeRow;
use crate::tables::Rows;
use kx_basics::{MOST_LEVELS, MOST_NAME_BYTES};

/// Whether a type's numbers fit, with so many entries and bytes of names before it.
fn is_numbered(row: TypeRow, entries: u64, names: u64) -> bool
    ensures { IsTrue result ↔ TypeNumbers row entries names }
{
    1 <= row.levels
        && row.levels <= MOST_LEVELS
        && usize::from(row.name_length) <= MOST_NAME_BYTES
        && u64::from(row.first_entry) == entries
        && u64::from(row.first_name) == names
}

/// Checks the types' numbers, and answers how many bytes their names have.
pub fn check_types<R: Rows>(rows: &R) -> Result<u64, Broken>
    ensures total { IfOk result (λ names. names ≡ type_names (R.content rows.now)) }
    ensures ok { IfOk result (λ names.
        TypesAre (R.content rows.now) (length (R.content rows.now).types)
        (length (R.content rows.now).entries) names) }
    ensures broken { IfErr result (λ b. Breaks (R.content rows.now) b.part b.index) }
{
    let counts = rows.counts();
    let mut entries = 0;
    let mut names = 0;
    for index in 0..counts.types {
        let row = rows.type_row(index);
        if !is_numbered(row, entries, names) {
            return Err(Broken {
                part: RecordKind::KeyType,
                index: u32::from(index),
            });
        }
        entries += u64::from(row.entries);
        names += u64::from(row.name_length);
    }
    if entries != u64::from(counts.entries) {
        return Err(Broken::HEADER);
    }
    Ok(names)
}
