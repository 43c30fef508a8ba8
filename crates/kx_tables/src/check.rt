//! Whether tables are sound.
ghost use Rattle.std.specs.Prelude.{OnOk, OnErr, IfErr};
ghost use Rattle.kx_tables.specs.Broken.{Breaks};
ghost use Rattle.kx_tables.specs.Sound.{Sound};

mod bytes;
mod cells;
mod distinct;
mod entries;
mod groups;
mod indicators;
mod keys;
mod names;
mod types;

use crate::tables::Rows;
use bytes::check_key_bytes;
use cells::{check_cells, check_keysyms};
use entries::check_entries;
use groups::check_groups;
use indicators::{check_group_names, check_indicators};
use keys::check_keys;
use names::{check_indicator_names, check_key_names, check_type_names};
use std::fmt;
use types::check_types;

/// A kind of record of a keymap's tables.
#[derive(Clone, Copy, Debug, PartialEq, Eq)]
pub enum RecordKind {
    /// The counts of all tables.
    Header,
    KeyType,
    Entry,
    Key,
    Group,
    Cell,
    Keysym,
    Indicator,
    GroupName,
    /// A byte of the names.
    Name,
}

impl fmt::Display for RecordKind {
    fn fmt<W: fmt::Write>(&self, f: &mut fmt::Formatter<W>) -> fmt::Result {
        f.write_str(match self {
            RecordKind::Header => "header",
            RecordKind::KeyType => "type",
            RecordKind::Entry => "entry",
            RecordKind::Key => "key",
            RecordKind::Group => "group",
            RecordKind::Cell => "cell",
            RecordKind::Keysym => "keysym",
            RecordKind::Indicator => "indicator",
            RecordKind::GroupName => "groupname",
            RecordKind::Name => "name",
        })
    }
}

/// A record that breaks a rule: its kind, and its index counted from 0.
#[derive(Clone, Copy, PartialEq, Eq)]
pub struct Broken {
    pub part: RecordKind,
    pub index: u32,
}

impl Broken {
    pub(crate) const HEADER: Broken = Broken {
        part: RecordKind::Header,
        index: 0,
    };
}

/// Checks that tables are sound, in one pass a table and without memory. A refusal names a record that breaks a rule.
pub fn check<R: Rows>(rows: &R) -> Result<(), Broken>
    ensures ok { OnOk result (Sound (R.content rows.now)) }
    ensures broken { IfErr result (λ b. Breaks (R.content rows.now) b.part b.index) }
    ensures unsound { OnErr result (Sound (R.content rows.now) → ⊥) }
{
    check_rules(rows)
}

/// Checks the rules of each table in turn.
fn check_rules<R: Rows>(rows: &R) -> Result<(), Broken>
    ensures ok { OnOk result (Sound (R.content rows.now)) }
    ensures broken { IfErr result (λ b. Breaks (R.content rows.now) b.part b.index) }
{
    let counts = rows.counts();
    check_groups(rows)?;
    let type_names = check_types(rows)?;
    let key_names = check_keys(rows, type_names)?;
    check_cells(rows)?;
    check_keysyms(rows)?;
    let names = check_indicators(rows, key_names)?;
    check_group_names(rows, names)?;
    check_entries(rows)?;
    check_key_bytes(rows, type_names as u32, key_names as u32)?;
    check_type_names(rows)?;
    check_key_names(rows)?;
    check_indicator_names(rows)?;
    Ok(())
}
