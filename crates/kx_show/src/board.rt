//! Which key of the tables lies where.
use crate::labels::{Label, labels_of};
use crate::slots::{OTHER_NAMES, ROWS, slots};
use ks_core::NameTable;
use kx_tables::Tables;
use std::alloc::{AllocError, Global};

/// A key that is shown: its name, its code, and the labels of its levels.
#[derive(Drop)]
pub(crate) struct Shown<'a> {
    pub name: &'a [u8],
    pub code: u16,
    pub labels: Vec<Label>,
}

/// The keys of tables: for each place of a PC keyboard the one that lies there, and the others that give something.
#[derive(Drop)]
pub(crate) struct Board<'a> {
    pub keys: Vec<Option<Shown<'a>>>,
    pub others: Vec<Shown<'a>>,
}

/// The place of the key of a name.
pub(crate) fn place_of(name: &[u8]) -> Option<usize> {
    let mut wanted = name;
    for other in &OTHER_NAMES {
        if other.name.as_bytes() == name {
            wanted = other.slot.as_bytes();
        }
    }
    slots()
        .iter()
        .position(|slot| slot.name.as_bytes() == wanted)
}

impl<'a> Board<'a> {
    /// A keyboard without keys.
    fn new(alloc: Global) -> Result<Board<'a>, AllocError> {
        let mut keys = Vec::new(alloc);
        for _ in slots() {
            keys.push(None)?;
        }
        Ok(Board {
            keys,
            others: Vec::new(alloc),
        })
    }

    /// Puts a key in its place, or among the others where it has none.
    fn put(&mut self, key: Shown<'a>) -> Result<(), AllocError> {
        if let Some(place) = place_of(key.name)
            && let Some(slot) = self.keys.get_mut(place)
            && slot.is_none()
        {
            *slot = Some(key);
        } else if !key.labels.is_empty() {
            self.others.push(key)?;
        }
        Ok(())
    }

    /// The keys of tables in an effective group, counted from 0.
    pub(crate) fn of<T: Tables>(
        alloc: Global,
        tables: &'a T,
        names: &NameTable,
        group: u8,
    ) -> Result<Board<'a>, AllocError> {
        let mut board = Board::new(alloc)?;
        for index in 0..tables.key_count() {
            let row = tables.key_row(index);
            board.put(Shown {
                name: tables.key_name(index),
                code: row.code,
                labels: labels_of(alloc, tables, names, row, group)?,
            })?;
        }
        Ok(board)
    }

    /// How many levels each row of keys shows, 1 at least.
    pub(crate) fn heights(&self) -> [usize; ROWS] {
        let mut heights = [1; ROWS];
        for (slot, key) in slots().iter().zip(self.keys.iter()) {
            if let Some(key) = key
                && let Some(height) = heights.get_mut(usize::from(slot.row))
            {
                *height = key.labels.len().max(*height);
            }
        }
        heights
    }

    /// How many levels keys show at the most.
    pub(crate) fn levels(&self) -> usize {
        let mut most = 0;
        for height in &self.heights() {
            most = most.max(*height);
        }
        most
    }
}
