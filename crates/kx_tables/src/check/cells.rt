//! Cells: their numbers and actions.
ghost use Rattle.std.specs.Prelude.{◌≡◌, ◌↔◌, IsTrue, OnOk, IfErr, length};
ghost use Rattle.kx_tables.specs.Broken.{Breaks};
ghost use Rattle.kx_tables.specs.SoFar.{CellsAre, CellNumbers, EachBelow};
ghost use Rattle.kx_basics.specs.Keysyms.{IsKeysym};
ghost use Rattle.kx_tables.specs.Sound.{ActionHolds, GroupChangeHolds};

use super::{Broken, RecordKind};
use crate::rows::{Action, CellRow, GroupChange};
use crate::tables::Rows;
use kx_basics::{MOST_KEYSYMS, is_keysym};

/// Whether an action's group is within its range.
fn group_change_holds(group: GroupChange) -> bool
    ensures { IsTrue result ↔ GroupChangeHolds group }
{
    match group {
        GroupChange::Absolute(to) => to <= 31,
        GroupChange::Relative(by) => -32 <= by && by <= 32,
    }
}

/// Whether an action's numbers are within their ranges.
fn action_holds(action: Action) -> bool
    ensures { IsTrue result ↔ ActionHolds action }
{
    match action {
        Action::SetGroup { group, .. } => group_change_holds(group),
        Action::LatchGroup { group, .. } => group_change_holds(group),
        Action::LockGroup { group } => group_change_holds(group),
        Action::None => true,
        Action::SetMods { .. } => true,
        Action::LatchMods { .. } => true,
        Action::LockMods { .. } => true,
    }
}

/// Whether a cell's numbers fit, with so many keysyms before it.
fn is_numbered(row: &CellRow, keysyms: u64) -> bool
    ensures { IsTrue result ↔ CellNumbers row.now keysyms }
{
    usize::from(row.keysyms) <= MOST_KEYSYMS
        && action_holds(row.action)
        && u64::from(row.first_keysym) == keysyms
}

/// Checks the cells.
pub fn check_cells<R: Rows>(rows: &R) -> Result<(), Broken>
    ensures ok { OnOk result (CellsAre (R.content rows.now) (length (R.content rows.now).cells)
        (length (R.content rows.now).keysyms)) }
    ensures broken { IfErr result (λ b. Breaks (R.content rows.now) b.part b.index) }
{
    let counts = rows.counts();
    let mut keysyms = 0;
    for index in 0..counts.cells {
        let row = rows.cell_row(index);
        if !is_numbered(&row, keysyms) {
            return Err(Broken {
                part: RecordKind::Cell,
                index,
            });
        }
        keysyms += u64::from(row.keysyms);
    }
    if keysyms != u64::from(counts.keysyms) {
        return Err(Broken::HEADER);
    }
    Ok(())
}

/// Checks the keysyms.
pub fn check_keysyms<R: Rows>(rows: &R) -> Result<(), Broken>
    ensures ok { OnOk result (EachBelow (R.content rows.now).keysyms (λ i s. IsKeysym s)
        (length (R.content rows.now).keysyms)) }
    ensures broken { IfErr result (λ b. Breaks (R.content rows.now) b.part b.index) }
{
    for index in 0..rows.counts().keysyms {
        let keysym = rows.keysym(index);
        if !is_keysym(keysym) {
            return Err(Broken {
                part: RecordKind::Keysym,
                index,
            });
        }
    }
    Ok(())
}
