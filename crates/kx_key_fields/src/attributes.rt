//! What statements say of a key besides its lists.
ghost use Rattle.std.specs.Prelude.{◌≡◌, IfOk, IfSome, None, OnOk, false};
ghost use Rattle.std.specs.Option.{option_map};
ghost use Rattle.kx_merge.specs.Moved.{moved_value};
ghost use Rattle.kx_merge.specs.Offers.{is_replace, merged_value};
ghost use Rattle.kx_tables.specs.Sound.{RangeHolds};
ghost use Rattle.kx_key_fields.specs.Attributes.{no_settings, attribute_in, attribute_moves, type_at, with_given};

use crate::cells::AttributeCell;
use crate::given::Given;
use crate::group_types::{GroupTypes, try_clone};
use crate::key_range::KeyRange;
use kx_lex::Bytes;
use kx_merge::merged_value;
use kx_parse::Mode;
use kx_tables::Range;
use kx_virtual_mods::NameSet;
use std::alloc::{AllocError, Global};
use std::marker::Model;

/// What statements say of a key besides its lists. Where they say nothing, it takes no memory.
#[derive(Drop)]
pub struct KeyAttributes {
    group_types: GroupTypes,
    key_type: Option<Bytes>,
    virtual_mods: Option<NameSet>,
    range: Option<KeyRange>,
}

impl Model for KeyAttributes {
    ghost use Rattle.kx_key_fields.specs.Attributes.{Settings};

    ghost Value = { Settings };

    ghost view = { λ s. record {
      group_types = s.group_types;
      key_type = s.key_type;
      virtual_mods = s.virtual_mods;
      range = s.range;
    } };
}

impl KeyAttributes {
    /// Nothing is said.
    pub fn none(alloc: Global) -> KeyAttributes
        ensures value { result ≡ no_settings }
        ensures cells { (cell : AttributeCell) → attribute_in result cell ≡ None }
    {
        KeyAttributes {
            group_types: GroupTypes::none(alloc),
            key_type: None,
            virtual_mods: None,
            range: None,
        }
    }

    /// The name of the type of a group, counted from 0. Of a name of more than 255 bytes, which no type has, the first 256
    /// are kept.
    pub fn group_type(&self, group: usize) -> Option<&[u8]>
        ensures { option_map (λ n. n.now) result ≡ type_at self.now.group_types group }
    {
        self.group_types.of_group(group)
    }

    /// The name of the type of the groups that have none of their own; of a longer name than 255 bytes the first 256.
    pub fn key_type(&self) -> Option<&[u8]>
        ensures { option_map (λ n. n.now) result ≡ self.now.key_type }
    {
        match &self.key_type {
            Some(name) => Some(name.as_slice()),
            None => None,
        }
    }

    /// The virtual modifiers that the key bears.
    pub fn virtual_mods(&self) -> Option<NameSet>
        ensures { result ≡ self.now.virtual_mods }
    {
        self.virtual_mods
    }

    /// What becomes of a group that the key doesn't have.
    pub fn range(&self) -> Option<Range>
        ensures value { result ≡ self.now.range }
        ensures within { IfSome result RangeHolds }
    {
        match self.range {
            Some(range) => Some(range.range()),
            None => None,
        }
    }

    /// Sets what a field gives, where it gives anything.
    pub(crate) fn put(&mut self, alloc: Global, given: &Option<Given>) -> Result<(), AllocError>
        ensures { OnOk result (self.new ≡ with_given self.old given.now) }
    {
        match given {
            None => {}
            Some(Given::GroupType(group, name)) => {
                self.group_types.put(alloc, *group, name.as_slice())?
            }
            Some(Given::KeyType(name)) => {
                self.key_type = Some(Bytes::of(alloc, name.as_slice())?)
            }
            Some(Given::VirtualMods(set)) => self.virtual_mods = Some(*set),
            Some(Given::Range(range)) => self.range = Some(*range),
        }
        Ok(())
    }

    /// The same settings again.
    pub(crate) fn try_clone(&self, alloc: Global) -> Result<KeyAttributes, AllocError>
        ensures { IfOk result (λ settings. settings ≡ self.now) }
    {
        Ok(KeyAttributes {
            group_types: self.group_types.try_clone(alloc)?,
            key_type: try_clone(alloc, &self.key_type)?,
            virtual_mods: self.virtual_mods,
            range: self.range,
        })
    }

    /// The settings where the map of the key is moved to a group, counted from 1; as they are where it isn't moved.
    fn moved(&self, alloc: Global, group: Option<u8>) -> Result<KeyAttributes, AllocError>
        ensures { IfOk result (λ settings. (cell : AttributeCell)
            → attribute_in settings cell ≡ moved_value attribute_moves group (attribute_in self.now)
            cell) }
    {
        Ok(KeyAttributes {
            group_types: self.group_types.moved(alloc, group)?,
            key_type: try_clone(alloc, &self.key_type)?,
            virtual_mods: self.virtual_mods,
            range: self.range,
        })
    }

    /// Merges what a later statement or include says under a mode that isn't replace.
    fn merge_cells(&mut self, other: KeyAttributes, mode: Mode) -> Result<(), AllocError>
        requires { is_replace mode ≡ false }
        ensures { OnOk result ((cell : AttributeCell)
            → attribute_in self.new cell ≡ merged_value mode (attribute_in self.old cell)
            (attribute_in other cell)) }
    {
        self.group_types.merge(other.group_types, mode)?;
        let key_type = self.key_type.take();
        self.key_type = merged_value(mode, key_type, other.key_type);
        self.virtual_mods = merged_value(mode, self.virtual_mods, other.virtual_mods);
        self.range = merged_value(mode, self.range, other.range);
        Ok(())
    }

    /// Merges what a later statement or include says.
    pub fn merge(&mut self, other: KeyAttributes, mode: Mode) -> Result<(), AllocError>
        ensures { OnOk result ((cell : AttributeCell)
            → attribute_in self.new cell ≡ merged_value mode (attribute_in self.old cell)
            (attribute_in other cell)) }
    {
        match mode {
            Mode::Replace => {
                *self = other;
                Ok(())
            }
            Mode::Augment => self.merge_cells(other, mode),
            Mode::Override => self.merge_cells(other, mode),
        }
    }

    /// Merges what a record of an included map says, as it stands where its map is moved to a group, counted from 1: the
    /// type of its first group is that of this group, and those of its other groups go. As it is where it isn't moved.
    pub fn merge_moved(
        &mut self,
        alloc: Global,
        other: &KeyAttributes,
        group: Option<u8>,
        mode: Mode,
    ) -> Result<(), AllocError>
        ensures { OnOk result ((cell : AttributeCell)
            → attribute_in self.new cell ≡ merged_value mode (attribute_in self.old cell)
            (moved_value attribute_moves group (attribute_in other.now) cell)) }
    {
        let moved = other.moved(alloc, group)?;
        self.merge(moved, mode)
    }
}
