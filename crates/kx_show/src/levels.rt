//! What the levels of keys hold. Each row is looked up by an index that the tables have, else nothing is there.
use kx_tables::{CellRow, EntryRow, GroupRow, KeyRow, Rows, TypeRow, wrap_group};

/// A group of a key: its row and that of its type.
#[derive(Clone, Copy)]
pub(crate) struct Group {
    pub row: GroupRow,
    pub key_type: TypeRow,
}

/// The group of a key at a place, counted from 0.
pub(crate) fn group_at<R: Rows>(rows: &R, key: KeyRow, group: u8) -> Option<Group> {
    let counts = rows.counts();
    let place = key.first_group.checked_add(u32::from(group))?;
    if group >= key.groups || place >= counts.groups {
        return None;
    }
    let row = rows.group_row(place);
    if row.key_type >= counts.types {
        return None;
    }
    let key_type = rows.type_row(row.key_type);
    Some(Group { row, key_type })
}

/// The group of a key that stands for an effective one, counted from 0.
pub(crate) fn shown_group<R: Rows>(rows: &R, key: KeyRow, group: u8) -> Option<Group> {
    if key.groups == 0 {
        return None;
    }
    let place = wrap_group(i64::from(group), key.groups, key.range);
    group_at(rows, key, place)
}

/// The cell of a level, counted from 0.
pub(crate) fn cell_at<R: Rows>(rows: &R, group: Group, level: u8) -> Option<CellRow> {
    let place = group.row.first_cell.checked_add(u32::from(level))?;
    if level >= group.key_type.levels || place >= rows.counts().cells {
        return None;
    }
    Some(rows.cell_row(place))
}

/// The keysym of a cell at a place, counted from 0.
pub(crate) fn keysym_at<R: Rows>(rows: &R, cell: CellRow, index: u8) -> Option<u32> {
    let place = cell.first_keysym.checked_add(u32::from(index))?;
    if index >= cell.keysyms || place >= rows.counts().keysyms {
        return None;
    }
    Some(rows.keysym(place))
}

/// The entry of a type at a place, counted from 0.
pub(crate) fn entry_at<R: Rows>(rows: &R, key_type: TypeRow, index: u16) -> Option<EntryRow> {
    let place = key_type.first_entry.checked_add(u32::from(index))?;
    if index >= key_type.entries || place >= rows.counts().entries {
        return None;
    }
    Some(rows.entry_row(place))
}
