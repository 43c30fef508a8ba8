//! The types of a key's groups.
ghost use Rattle.std.specs.Prelude.{◌≡◌, ◌+◌, ◌==◌, ◌≤◌, [], ℕ, IfOk, None, OnOk, false, length, max, nat_eq, if◌then◌else◌};
ghost use Rattle.std.specs.Option.{option_map};
ghost use Rattle.kx_merge.specs.Offers.{is_replace, merged_value};
ghost use Rattle.kx_key_fields.specs.Attributes.{type_at, widened_to, with_type};
ghost use Rattle.kx_key_fields.specs.TypesMoved.{type_moved};

use kx_lex::Bytes;
use kx_merge::merged_value;
use kx_parse::Mode;
use std::alloc::{AllocError, Global};
use std::marker::Model;

/// The names of the types of groups, which are counted from 0; seen as a list that has `None` for a group without one. Where
/// there are none, no memory is taken.
#[derive(Drop)]
pub(crate) struct GroupTypes {
    types: Vec<Option<Bytes>>,
}

impl Model for GroupTypes {
    ghost use Rattle.kx_key_fields.specs.Attributes.{GroupTypes};

    ghost Value = { GroupTypes };

    ghost view = { λ t. t.types.items };
}

/// The same name again.
pub(crate) fn try_clone(alloc: Global, name: &Option<Bytes>) -> Result<Option<Bytes>, AllocError>
    ensures { IfOk result (λ copy. copy ≡ name.now) }
{
    match name {
        Some(name) => Ok(Some(Bytes::of(alloc, name.as_slice())?)),
        None => Ok(None),
    }
}

/// Makes room for so many groups at least.
fn widen(types: &mut Vec<Option<Bytes>>, count: usize) -> Result<(), AllocError>
    ensures { OnOk result (types.new.items ≡ widened_to count types.old.items) }
{
    'groups: while types.len() < count {
        types.push(None)?;
    }
    Ok(())
}

impl GroupTypes {
    /// No types.
    pub(crate) fn none(alloc: Global) -> GroupTypes
        ensures { result ≡ [] }
    {
        GroupTypes {
            types: Vec::new(alloc),
        }
    }

    /// The name of a group's type.
    pub(crate) fn of_group(&self, group: usize) -> Option<&[u8]>
        ensures { option_map (λ n. n.now) result ≡ type_at self.now group }
    {
        match self.types.get(group) {
            Some(Some(name)) => Some(name.as_slice()),
            _ => None,
        }
    }

    /// Gives a group a type.
    pub(crate) fn put(&mut self, alloc: Global, group: u8, name: &[u8]) -> Result<(), AllocError>
        ensures { OnOk result (self.new ≡ with_type self.old group name.now) }
    {
        let name = Bytes::of(alloc, name)?;
        let group = usize::from(group);
        widen(&mut self.types, group + 1)?;
        self.types[group] = Some(name);
        Ok(())
    }

    /// Merges a later type at a place, the next at most.
    fn merge_type(
        &mut self,
        place: usize,
        name: Option<Bytes>,
        mode: Mode,
    ) -> Result<(), AllocError>
        requires { place ≤ length self.old }
        ensures types { OnOk result ((g : ℕ)
            → type_at self.new g ≡ (if nat_eq g place then merged_value mode
            (type_at self.old place) name
            else type_at self.old g)) }
        ensures long { OnOk result (length self.new ≡ max (length self.old) (place + 1)) }
    {
        if place < self.types.len() {
            let old = self.types[place].take();
            self.types[place] = merged_value(mode, old, name);
            Ok(())
        } else {
            self.types.push(name)?;
            Ok(())
        }
    }

    /// Merges later types under a mode that isn't replace.
    pub(crate) fn merge(&mut self, other: GroupTypes, mode: Mode) -> Result<(), AllocError>
        requires { is_replace mode ≡ false }
        ensures { OnOk result ((g : ℕ)
            → type_at self.new g ≡ merged_value mode (type_at self.old g) (type_at other g)) }
    {
        let mut later = other.types;
        'types: for place in 0..later.len() {
            let name = later[place].take();
            self.merge_type(place, name, mode)?;
        }
        Ok(())
    }

    /// The same types again.
    pub(crate) fn try_clone(&self, alloc: Global) -> Result<GroupTypes, AllocError>
        ensures { IfOk result (λ types. types ≡ self.now) }
    {
        let mut types = Vec::new(alloc);
        'types: for name in &self.types {
            types.push(try_clone(alloc, name)?)?;
        }
        Ok(GroupTypes { types })
    }

    /// The first group's type alone, as that of another group.
    fn first_at(&self, alloc: Global, group: u8) -> Result<GroupTypes, AllocError>
        ensures { IfOk result (λ types. (g : ℕ)
            → type_at types g ≡ (if g == group then type_at self.now 0 else None)) }
    {
        let mut types = GroupTypes::none(alloc);
        if let Some(name) = self.of_group(0) {
            types.put(alloc, group, name)?;
        }
        Ok(types)
    }

    /// The types where the map of the key is moved to a group, counted from 1.
    pub(crate) fn moved(&self, alloc: Global, group: Option<u8>) -> Result<GroupTypes, AllocError>
        ensures { IfOk result (λ types. (g : ℕ) → type_at types g ≡ type_moved group self.now g) }
    {
        match group {
            None => self.try_clone(alloc),
            Some(0) => Ok(GroupTypes::none(alloc)),
            Some(group) => self.first_at(alloc, group - 1),
        }
    }
}
