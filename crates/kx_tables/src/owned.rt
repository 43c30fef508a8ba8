//! Tables in vectors.
ghost use Rattle.std.specs.Prelude.{◌≡◌, ◌<◌, ◌↔◌, IsTrue, IfOk, IfErr, OnOk, OnErr};
ghost use Rattle.kx_tables.specs.Broken.{Breaks};
ghost use Rattle.kx_tables.specs.Fit.{CountsFit};
ghost use Rattle.kx_tables.specs.RawTables.{content_of};
ghost use Rattle.kx_tables.specs.Sound.{Sound};

use crate::check::{Broken, RecordKind, check};
use crate::rows::{CellRow, EntryRow, GroupNameRow, GroupRow, IndicatorRow, KeyRow, TypeRow};
use crate::tables::{Counts, Rows, Tables, most_groups};
use kx_basics::MOST_GROUPS;
use std::marker::Model;

/// Tables in vectors, sound or not.
#[derive(Drop)]
pub struct RawTables {
    pub types: Vec<TypeRow>,
    pub entries: Vec<EntryRow>,
    pub keys: Vec<KeyRow>,
    pub groups: Vec<GroupRow>,
    pub cells: Vec<CellRow>,
    pub keysyms: Vec<u32>,
    pub indicators: Vec<IndicatorRow>,
    pub group_names: Vec<GroupNameRow>,
    /// The bytes of all names: the types', the keys', the indicators' and the groups'.
    pub names: Vec<u8>,
}

/// Whether counts fit the numbers in which they are told.
fn counts_fit(parts: &RawTables) -> bool
    ensures { IsTrue result ↔ CountsFit (content_of parts.now) }
{
    parts.types.len() < 1 << 16
        && parts.entries.len() < 1 << 32
        && parts.keys.len() < 1 << 16
        && parts.groups.len() < 1 << 32
        && parts.cells.len() < 1 << 32
        && parts.keysyms.len() < 1 << 32
        && parts.indicators.len() < 1 << 16
        && parts.group_names.len() < 1 << 16
        && parts.names.len() < 1 << 32
}

/// A record that breaks a rule, of tables whose counts don't fit.
fn unfit(parts: &RawTables) -> Broken
    requires { CountsFit (content_of parts.now) → ⊥ }
    ensures { Breaks (content_of parts.now) result.part result.index }
{
    if parts.indicators.len() > 32 {
        return Broken {
            part: RecordKind::Indicator,
            index: 32,
        };
    }
    if parts.group_names.len() > 32 {
        return Broken {
            part: RecordKind::GroupName,
            index: 32,
        };
    }
    if parts.keys.len() >= 1 << 16 {
        return Broken::HEADER;
    }
    // Where no key has too many groups, all groups of so few keys are counted in 32 bits.
    for index in 0..parts.keys.len() {
        if parts.keys[index].groups > MOST_GROUPS {
            return Broken {
                part: RecordKind::Key,
                index: index as u32,
            };
        }
    }
    Broken::HEADER
}

/// Tables whose counts fit.
#[derive(Drop)]
struct Counted {
    parts: RawTables,
}

impl Model for Counted {
    ghost use Rattle.kx_tables.specs.Content.{Content};

    ghost Value = { Content };

    ghost use Rattle.kx_tables.specs.Fit.{CountsFit};
    ghost use Rattle.kx_tables.specs.RawTables.{content_of};

    ghost view = { λ t. content_of t.parts };

    ghost invariant = { λ t. CountsFit (content_of t.parts) };
}

impl Counted {
    /// The tables, where their counts fit; else a record that breaks a rule.
    fn new(parts: RawTables) -> Result<Counted, Broken>
        ensures value { IfOk result (λ t. t ≡ content_of parts) }
        ensures ok { OnOk result (CountsFit (content_of parts)) }
        ensures broken { IfErr result (λ b. Breaks (content_of parts) b.part b.index) }
    {
        if !counts_fit(&parts) {
            return Err(unfit(&parts));
        }
        Ok(Counted { parts })
    }
}

impl Rows for Counted {
    ghost content = { λ t. t };

    fn counts(&self) -> Counts {
        let parts = &self.parts;
        Counts {
            types: parts.types.len() as u16,
            entries: parts.entries.len() as u32,
            keys: parts.keys.len() as u16,
            groups: parts.groups.len() as u32,
            cells: parts.cells.len() as u32,
            keysyms: parts.keysyms.len() as u32,
            indicators: parts.indicators.len() as u16,
            group_names: parts.group_names.len() as u16,
            names: parts.names.len() as u32,
        }
    }

    fn type_row(&self, index: u16) -> TypeRow {
        self.parts.types[usize::from(index)]
    }

    fn entry_row(&self, index: u32) -> EntryRow {
        self.parts.entries[index as usize]
    }

    fn key_row(&self, index: u16) -> KeyRow {
        self.parts.keys[usize::from(index)]
    }

    fn group_row(&self, index: u32) -> GroupRow {
        self.parts.groups[index as usize]
    }

    fn cell_row(&self, index: u32) -> CellRow {
        self.parts.cells[index as usize]
    }

    fn keysym(&self, index: u32) -> u32 {
        self.parts.keysyms[index as usize]
    }

    fn indicator_row(&self, index: u16) -> IndicatorRow {
        self.parts.indicators[usize::from(index)]
    }

    fn group_name_row(&self, index: u16) -> GroupNameRow {
        self.parts.group_names[usize::from(index)]
    }

    fn names(&self) -> &[u8] {
        self.parts.names.as_slice()
    }
}

/// Sound tables in vectors.
#[derive(Drop)]
pub struct Owned {
    rows: Counted,
    most_groups: u8,
}

impl Model for Owned {
    ghost use Rattle.std.specs.Prelude.{◌≡◌};
    ghost use Rattle.kx_tables.specs.Content.{Content};

    ghost Value = { Content };

    ghost use Rattle.kx_tables.specs.Content.{greatest_groups};
    ghost use Rattle.kx_tables.specs.Sound.{Sound};

    ghost view = { λ o. o.rows };

    ghost invariant = { λ o. Sound o.rows × (o.most_groups ≡ greatest_groups o.rows.keys) };
}

impl Owned {
    /// The tables, where they are sound; else a record that breaks a rule.
    pub fn new(parts: RawTables) -> Result<Owned, Broken>
        ensures value { IfOk result (λ o. o ≡ content_of parts) }
        ensures sound { OnOk result (Sound (content_of parts)) }
        ensures broken { IfErr result (λ b. Breaks (content_of parts) b.part b.index) }
        ensures unsound { OnErr result (Sound (content_of parts) → ⊥) }
    {
        let rows = Counted::new(parts)?;
        check(&rows)?;
        let most_groups = most_groups(&rows);
        Ok(Owned { rows, most_groups })
    }

    /// Tables that are known to be sound; nothing is checked again.
    pub fn from_sound(parts: RawTables) -> Owned
        requires { Sound (content_of parts) }
        ensures { result ≡ content_of parts }
    {
        let rows = Counted { parts };
        let most_groups = most_groups(&rows);
        Owned { rows, most_groups }
    }
}

impl Rows for Owned {
    ghost content = { λ o. o };

    fn counts(&self) -> Counts {
        self.rows.counts()
    }

    fn type_row(&self, index: u16) -> TypeRow {
        self.rows.type_row(index)
    }

    fn entry_row(&self, index: u32) -> EntryRow {
        self.rows.entry_row(index)
    }

    fn key_row(&self, index: u16) -> KeyRow {
        self.rows.key_row(index)
    }

    fn group_row(&self, index: u32) -> GroupRow {
        self.rows.group_row(index)
    }

    fn cell_row(&self, index: u32) -> CellRow {
        self.rows.cell_row(index)
    }

    fn keysym(&self, index: u32) -> u32 {
        self.rows.keysym(index)
    }

    fn indicator_row(&self, index: u16) -> IndicatorRow {
        self.rows.indicator_row(index)
    }

    fn group_name_row(&self, index: u16) -> GroupNameRow {
        self.rows.group_name_row(index)
    }

    fn names(&self) -> &[u8] {
        self.rows.names()
    }
}

impl Tables for Owned {
    fn key_count(&self) -> u16 {
        self.rows.counts().keys
    }

    fn greatest_groups(&self) -> u8 {
        self.most_groups
    }
}
