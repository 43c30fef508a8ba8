//! What the statements of a key give.
ghost use Rattle.std.specs.Prelude.{◌≡◌, ◌≤◌, ℕ, None, IsTrue, OnOk, false, max};
ghost use Rattle.std.specs.Option.{option_map};
ghost use Rattle.kx_merge.specs.Moved.{moved_value, moved_width};
ghost use Rattle.kx_merge.specs.Offers.{merged_value, merged_width};
ghost use Rattle.kx_key_fields.specs.Attributes.{attribute_in};
ghost use Rattle.kx_symbols.specs.Keys.{HasAction, cell_in, content_of, key_moves, width_in_key};
ghost use Rattle.kx_symbols.specs.declared.cells.Cell.TheVariants.{Keysyms as KeysymsOf, Action as ActionOf, Setting as AttributeOf};
ghost use Rattle.kx_symbols.specs.declared.cells.CellValue.TheVariants.{Keysyms as KeysymsValue, Action as ActionValue, Setting as AttributeOfKey};

use crate::actions::LevelAction;
use crate::cells::Cell;
use crate::fields::StatementLists;
use crate::keysyms::Keysyms;
use kx_actions::KeyAction;
use kx_key_fields::{AttributeCell, KeyAttributes};
use kx_key_lists::GroupLists;
use kx_parse::Mode;
use std::alloc::{AllocError, Global};
use std::marker::Model;

/// What the statements of a key give: for each group a list of keysyms and one of actions, where it has them, and what they
/// say of the key besides.
#[derive(Drop)]
pub struct KeyRecord {
    symbols: GroupLists<Keysyms>,
    actions: GroupLists<LevelAction>,
    settings: KeyAttributes,
}

impl Model for KeyRecord {
    ghost use Rattle.kx_symbols.specs.Keys.{KeyContent};

    ghost Value = { KeyContent };

    ghost view = { λ r. record {
      symbols = r.symbols;
      actions = r.actions;
      settings = r.settings;
    } };
}

impl KeyRecord {
    /// The record of what one statement gives.
    pub(crate) fn of(lists: StatementLists, settings: KeyAttributes) -> KeyRecord
        ensures { result ≡ content_of lists settings }
    {
        KeyRecord {
            symbols: GroupLists::of(lists.symbols),
            actions: GroupLists::of(lists.actions),
            settings,
        }
    }

    /// How many groups there are to look for: after the last list there is none.
    pub fn group_count(&self) -> usize
        ensures { (group : ℕ) → result ≤ group → width_in_key self.now group ≡ 0 }
    {
        self.symbols.group_count().max(self.actions.group_count())
    }

    /// How many levels a group has, counted from 0: as many as the longer of its lists.
    pub fn width(&self, group: usize) -> usize
        ensures { result ≡ width_in_key self.now group }
    {
        self.symbols.width(group).max(self.actions.width(group))
    }

    /// The keysyms of a group and a level, both counted from 0.
    pub fn keysyms(&self, group: usize, level: usize) -> Option<&Keysyms>
        ensures { option_map (λ keysyms. KeysymsValue keysyms.now) result
            ≡ cell_in self.now (KeysymsOf group level) }
    {
        self.symbols.get(group, level)
    }

    /// The action of a group and a level, both counted from 0.
    pub fn action(&self, group: usize, level: usize) -> Option<KeyAction>
        ensures { option_map (λ action. ActionValue action) result
            ≡ cell_in self.now (ActionOf group level) }
    {
        match self.actions.get(group, level) {
            Some(action) => Some(action.action()),
            None => None,
        }
    }

    /// Whether a group and a level have an action, however far beyond the levels of the group's type.
    pub fn has_action(&self) -> bool
        ensures some { IsTrue result → HasAction self.now }
        ensures none { result ≡ false → (group level : ℕ)
            → cell_in self.now (ActionOf group level) ≡ None }
    {
        self.actions.has_value()
    }

    /// What is said of the key besides its lists: the types of its groups, its own type, its virtual modifiers and its range.
    pub fn settings(&self) -> &KeyAttributes
        ensures value { result.now ≡ self.now.settings }
        ensures cells { (cell : AttributeCell)
            → option_map (λ value. AttributeOfKey value) (attribute_in result.now cell)
            ≡ cell_in self.now (AttributeOf cell) }
    {
        &self.settings
    }

    /// The record that nothing was given.
    pub(crate) fn none(alloc: Global) -> KeyRecord
        ensures cells { (c : Cell) → cell_in result c ≡ None }
        ensures widths { (g : ℕ) → width_in_key result g ≡ 0 }
    {
        KeyRecord {
            symbols: GroupLists::none(alloc),
            actions: GroupLists::none(alloc),
            settings: KeyAttributes::none(alloc),
        }
    }

    /// Merges what a later statement or include gives.
    pub(crate) fn merge_content(&mut self, other: KeyRecord, mode: Mode) -> Result<(), AllocError>
        ensures cells { OnOk result ((c : Cell)
            → cell_in self.new c ≡ merged_value mode (cell_in self.old c) (cell_in other c)) }
        ensures widths { OnOk result ((g : ℕ)
            → width_in_key self.new g ≡ merged_width mode (width_in_key self.old g)
            (width_in_key other g)) }
    {
        self.symbols.merge(other.symbols, mode)?;
        self.actions.merge(other.actions, mode)?;
        self.settings.merge(other.settings, mode)?;
        Ok(())
    }

    /// Merges what a record of an included map gives, as it stands where its map is moved to a group.
    pub(crate) fn merge_content_moved(
        &mut self,
        alloc: Global,
        other: &KeyRecord,
        group: Option<u8>,
        mode: Mode,
    ) -> Result<(), AllocError>
        ensures cells { OnOk result ((c : Cell)
            → cell_in self.new c ≡ merged_value mode (cell_in self.old c)
            (moved_value key_moves group (cell_in other.now) c)) }
        ensures widths { OnOk result ((g : ℕ)
            → width_in_key self.new g ≡ merged_width mode (width_in_key self.old g)
            (moved_width key_moves group (width_in_key other.now) g)) }
    {
        self.symbols
            .merge_moved(alloc, &other.symbols, group, mode)?;
        self.actions
            .merge_moved(alloc, &other.actions, group, mode)?;
        self.settings
            .merge_moved(alloc, &other.settings, group, mode)?;
        Ok(())
    }
}
