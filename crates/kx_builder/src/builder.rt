//! The builder of tables: what is pushed, in order.
ghost use Rattle.std.specs.Prelude.{◌≡◌, ◌<◌, [], OnOk, OnErr, IfErr, IfOk, length, map, ⊤};
ghost use Rattle.kx_builder.specs.Added.{TypeFits, KeyFits, GroupFits, CellFits};
ghost use Rattle.kx_builder.specs.Agreement.{ShowsSame};
ghost use Rattle.kx_builder.specs.Faults.{IsCause};
ghost use Rattle.kx_builder.specs.Valid.{IsValid};
ghost use Rattle.kx_builder.specs.IndicatorMaps.{IndicatorMapsAreValid, IndicatorMapsFit, indicator_of, keymap_with, with_indicator_maps};
ghost use Rattle.kx_builder.specs.Placed.{content_of_resolved};
ghost use Rattle.kx_builder.specs.Pushes.{with_type, with_key, with_group, with_cell, last_groups};
ghost use Rattle.kx_builder.specs.Resolved.{keymap_of_resolved, nothing_resolved};
ghost use Rattle.kx_builder.specs.Whole.{IsWhole};
ghost use Rattle.kx_tables.specs.Keymap.{keymap_of};
ghost use Rattle.kx_tables.specs.RawTables.{content_of};
ghost use Rattle.kx_tables.specs.Sound.{Sound};

use crate::fault::BuildFault;
use crate::indicator_maps::{Indicator, push_group_names, push_indicators};
use crate::tables::{
    add_cell, add_group, add_key, add_type, last_count, next_cell, next_key, next_type, no_tables,
    place,
};
use kx_mods::Mods;
use kx_tables::{Action, EntryRow, GroupRow, Range, RawTables};
use std::alloc::Global;
use std::marker::Model;

/// The tables of what is resolved so far: all types first, then the keys in order, each with its groups and their
/// cells. What is refused leaves a builder as it was.
#[derive(Drop)]
pub struct Builder {
    parts: RawTables,
}

impl Model for Builder {
    ghost use Rattle.std.specs.Prelude.{◌≡◌};
    ghost use Rattle.kx_builder.specs.Placed.{content_of_resolved};
    ghost use Rattle.kx_builder.specs.Resolved.{Resolved};
    ghost use Rattle.kx_builder.specs.Seen.{seen};
    ghost use Rattle.kx_tables.specs.RawTables.{content_of};

    ghost Value = { Resolved };

    ghost view = { λ b. seen (content_of b.parts) };

    ghost invariant = { λ b. content_of b.parts ≡ content_of_resolved (seen (content_of b.parts)) };
}

impl Builder {
    /// Nothing is resolved yet.
    pub fn new(alloc: Global) -> Builder
        ensures { result ≡ nothing_resolved }
    {
        Builder {
            parts: no_tables(alloc),
        }
    }

    /// Appends a type. It is misplaced after a key.
    pub fn push_type(
        &mut self,
        name: &[u8],
        mods: Mods,
        levels: u8,
        entries: &[EntryRow],
    ) -> Result<(), BuildFault>
        ensures pushed { OnOk result (self.new
            ≡ with_type self.old (record {
              name = name.now;
              mods = mods;
              levels = levels;
              entries = entries.now;
            })) }
        ensures fault { IfErr result (λ e.
            IsCause e (TypeFits (content_of_resolved self.old)
            (record { name = name.now; mods = mods; levels = levels; entries = entries.now }))
            (self.old.keys ≡ [])) }
        ensures unchanged { OnErr result (self.new ≡ self.old) }
    {
        if !self.parts.keys.is_empty() {
            return Err(BuildFault::Misplaced);
        }
        let row = next_type(&self.parts, name, mods, levels, entries)?;
        add_type(&mut self.parts, row, name, entries)
    }

    /// Appends a key without groups.
    pub fn push_key(
        &mut self,
        code: u16,
        name: &[u8],
        modmap: Mods,
        range: Range,
    ) -> Result<(), BuildFault>
        ensures pushed { OnOk result (self.new
            ≡ with_key self.old (record {
              code = code;
              name = name.now;
              modmap = modmap;
              range = range;
              groups = [];
            })) }
        ensures fault { IfErr result (λ e.
            IsCause e (KeyFits (content_of_resolved self.old)
            (record { code = code; name = name.now; modmap = modmap; range = range; groups = [] }))
            ⊤) }
        ensures unchanged { OnErr result (self.new ≡ self.old) }
    {
        let row = next_key(&self.parts, code, name, modmap, range)?;
        add_key(&mut self.parts, row, name)
    }

    /// Appends a group without cells to the last key. It is misplaced where there is no key.
    pub fn push_group(&mut self, key_type: u16) -> Result<(), BuildFault>
        ensures pushed { OnOk result (self.new
            ≡ with_group self.old (record { key_type = key_type; cells = [] })) }
        ensures fault { IfErr result (λ e.
            IsCause e (GroupFits (content_of_resolved self.old)) (0 < length self.old.keys)) }
        ensures unchanged { OnErr result (self.new ≡ self.old) }
    {
        let row = GroupRow {
            key_type,
            first_cell: place(self.parts.cells.len())?,
        };
        add_group(&mut self.parts, row)
    }

    /// Appends a cell to the last group of the last key. It is misplaced where that key has no group.
    pub fn push_cell(&mut self, keysyms: &[u32], action: Action) -> Result<(), BuildFault>
        ensures pushed { OnOk result (self.new
            ≡ with_cell self.old (record { syms = keysyms.now; action = action })) }
        ensures fault { IfErr result (λ e.
            IsCause e (CellFits (content_of_resolved self.old)
            (record { syms = keysyms.now; action = action }))
            (0 < length (last_groups self.old.keys))) }
        ensures unchanged { OnErr result (self.new ≡ self.old) }
    {
        if last_count(&self.parts) == 0 {
            return Err(BuildFault::Misplaced);
        }
        let row = next_cell(&self.parts, keysyms, action)?;
        add_cell(&mut self.parts, row, keysyms)
    }

    /// The tables. Where what is resolved is whole, their keymap is its keymap; where it is valid, they are sound.
    pub fn into_parts(self) -> RawTables
        ensures content { content_of result ≡ content_of_resolved self }
        ensures agrees { IsWhole self → ShowsSame (keymap_of (content_of result))
            (keymap_of_resolved self) }
        ensures sound { IsValid self → Sound (content_of result) }
    {
        self.parts
    }

    /// The tables, with indicators and the names of groups. Where what is resolved is whole and valid, and so are these,
    /// their keymap is its keymap with these indicator maps, and they are sound.
    pub fn with_indicator_maps(
        self,
        indicators: &[Indicator<'_>],
        group_names: &[&[u8]],
    ) -> Result<RawTables, BuildFault>
        ensures content { IfOk result (λ parts.
            content_of parts ≡ with_indicator_maps (content_of_resolved self)
            (map indicator_of indicators.now) (map (λ g. g.now) group_names.now)) }
        ensures agrees { IsWhole self → IfOk result (λ parts.
            ShowsSame (keymap_of (content_of parts))
            (keymap_with (keymap_of_resolved self) (map indicator_of indicators.now))) }
        ensures sound { IsValid self → IndicatorMapsAreValid (map indicator_of indicators.now)
            (map (λ g. g.now) group_names.now) → IfOk result (λ parts. Sound (content_of parts)) }
        ensures fault { IfErr result (λ e.
            IsCause e (IndicatorMapsFit (content_of_resolved self) (map indicator_of indicators.now)
            (map (λ g. g.now) group_names.now)) ⊤) }
    {
        let mut parts = self.parts;
        push_indicators(&mut parts, indicators)?;
        push_group_names(&mut parts, group_names)?;
        Ok(parts)
    }
}
