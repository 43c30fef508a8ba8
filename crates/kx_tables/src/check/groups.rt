//! Groups of keys.
ghost use Rattle.std.specs.Prelude.{◌≡◌, ◌↔◌, IsTrue, OnOk, IfErr, length};
ghost use Rattle.kx_tables.specs.Broken.{Breaks};
ghost use Rattle.kx_tables.specs.Content.{types_used};
ghost use Rattle.kx_tables.specs.SoFar.{GroupsAre, GroupNumbers};

use super::{Broken, RecordKind};
use crate::rows::GroupRow;
use crate::tables::Rows;

/// Whether a group's numbers fit, with so many types, so many of them used before it, and so many cells before it.
fn is_numbered(row: &GroupRow, types: u16, used: u16, cells: u64) -> bool
    ensures { IsTrue result ↔ GroupNumbers row.now types used cells }
{
    row.key_type < types && row.key_type <= used && u64::from(row.first_cell) == cells
}

/// Checks the groups, and that each type is used.
pub fn check_groups<R: Rows>(rows: &R) -> Result<(), Broken>
    ensures ok { OnOk result (GroupsAre (R.content rows.now) (length (R.content rows.now).groups)
        (length (R.content rows.now).types) (length (R.content rows.now).cells)) }
    ensures broken { IfErr result (λ b. Breaks (R.content rows.now) b.part b.index) }
{
    let counts = rows.counts();
    let mut used = 0;
    let mut cells = 0;
    for index in 0..counts.groups {
        let row = rows.group_row(index);
        if !is_numbered(&row, counts.types, used, cells) {
            return Err(Broken {
                part: RecordKind::Group,
                index,
            });
        }
        used = used.max(row.key_type + 1);
        cells += u64::from(rows.type_row(row.key_type).levels);
    }
    if cells != u64::from(counts.cells) {
        return Err(Broken::HEADER);
    }
    if used < counts.types {
        return Err(Broken {
            part: RecordKind::KeyType,
            index: u32::from(used),
        });
    }
    Ok(())
}
