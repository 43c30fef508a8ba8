//! The key types that groups have, made out once.
ghost use Rattle.std.specs.Prelude.{◌≡◌, ◌≤◌, ◌+◌, ◌%◌, ◌^◌, ◌∷◌, [], IfErr, IfOk, OnOk, length, map};
ghost use Rattle.kx_basics.specs.declared.limits.TheConstants.{CODES, MOST_LEVELS};
ghost use Rattle.kx_lex.specs.declared.fault.Fault.TheVariants.{Memory};
ghost use Rattle.kx_resolve.specs.TypesInUse.{type_in_use};
ghost use Rattle.kx_keys.specs.Given.{given};
ghost use Rattle.kx_keys.specs.GroupTypes.{group_count, group_type_name};
ghost use Rattle.kx_keys.specs.Keys.{type_names};
ghost use Rattle.kx_resolve.specs.NamedKeys.{names_at, names_used, typing_in, used_in};
ghost use Rattle.kx_resolve.specs.UsedTypes.{Adds};
ghost use Rattle.kx_keys.specs.Typing.{typing_of};
ghost use Rattle.kx_types.specs.declared.limits.TheConstants.{MOST_TYPES};

use crate::named_keys::NamedKeys;
use kx_keys::group_types::{GroupType, group_count, group_type_near};
use kx_keys::typing::Typing;
use kx_lex::Fault;
use kx_symbols::KeyRecord;
use kx_virtual_mods::Names;
use std::alloc::Global;
use std::marker::Model;

/// The type of a group, made out; seen as its place and its levels.
#[derive(Drop)]
pub(crate) struct TypeInUse {
    place: u16,
    levels: u8,
    falls_back: bool,
}

impl Model for TypeInUse {
    ghost use Rattle.std.specs.Prelude.{◌≤◌};
    ghost use Rattle.kx_basics.specs.declared.limits.TheConstants.{MOST_LEVELS};
    ghost use Rattle.kx_resolve.specs.TypesInUse.{TypeInUse};

    ghost Value = { TypeInUse };

    ghost view = { λ c. record { place = c.place; levels = c.levels } };

    ghost invariant = { λ c. c.levels ≤ MOST_LEVELS };
}

impl TypeInUse {
    /// A type at a place, which is a number of 16 bits.
    fn of(place: usize, group_type: GroupType) -> TypeInUse
        requires { group_type.levels ≤ MOST_LEVELS }
        ensures { result ≡ record { place = place % 2 ^ 16; levels = group_type.entry.levels } }
    {
        TypeInUse {
            place: (place % 0x1_0000) as u16,
            levels: group_type.levels as u8,
            falls_back: group_type.falls_back,
        }
    }

    /// Its place among the types in use, counted from 0.
    pub(crate) fn place(&self) -> u16
        ensures { result ≡ self.now.place }
    {
        self.place
    }

    /// How many levels it has.
    pub(crate) fn levels(&self) -> usize
        ensures value { result ≡ self.now.levels }
        ensures few { result ≤ MOST_LEVELS }
    {
        usize::from(self.levels)
    }

    /// Whether it stands in place of another that is wanted.
    pub(crate) fn falls_back(&self) -> bool {
        self.falls_back
    }
}

/// The types in use, in the order of first use, and the type of each group by its place, in the order of keys.
#[derive(Drop)]
pub(crate) struct UsedTypes {
    pub(crate) names: Names,
    pub(crate) group_types: Vec<TypeInUse>,
    /// The place among the declared types of the last one, which the next group mostly has too.
    last: usize,
}

/// Adds the type of a group of a key.
fn use_group(
    alloc: Global,
    typing: Typing,
    key: &KeyRecord,
    group: usize,
    used: &mut UsedTypes,
) -> Result<(), Fault>
    ensures used { OnOk result (Adds (typing_of typing.entry)
        (group_type_name (typing_of typing.entry) (given key.now) group ∷ []) used.old used.new) }
    ensures err { IfErr result (λ e. e ≡ Memory) }
{
    let group_type = group_type_near(typing, key, group, used.last);
    used.last = group_type.place;
    let place = used.names.number(alloc, group_type.name)?;
    used.group_types.push(TypeInUse::of(place, group_type))?;
    Ok(())
}

/// Adds the types of a key's groups.
fn use_key(
    alloc: Global,
    typing: Typing,
    key: &KeyRecord,
    used: &mut UsedTypes,
) -> Result<(), Fault>
    ensures used { OnOk result (Adds (typing_of typing.entry)
        (type_names (typing_of typing.entry) (given key.now) (group_count (given key.now))) used.old
        used.new) }
    ensures err { IfErr result (λ e. e ≡ Memory) }
{
    'groups: for group in 0..group_count(key) {
        use_group(alloc, typing, key, group, used)?;
    }
    Ok(())
}

/// Adds the types of the key of a code, where the code has a name.
fn use_code(alloc: Global, keys: NamedKeys, code: u16, used: &mut UsedTypes) -> Result<(), Fault>
    ensures used { OnOk result (Adds (typing_in keys.entry) (names_at keys.entry code) used.old
        used.new) }
    ensures err { IfErr result (λ e. e ≡ Memory) }
{
    match keys.key(code) {
        Some(key) => use_key(alloc, keys.typing, key, used),
        None => Ok(()),
    }
}

/// The types that keys use.
pub(crate) fn types_used(alloc: Global, keys: NamedKeys) -> Result<UsedTypes, Fault>
    ensures used { IfOk result (λ used. used.names ≡ used_in keys.entry) }
    ensures group_types { IfOk result (λ used. used.group_types.items
        ≡ map (type_in_use (typing_in keys.entry) used.names) (names_used keys.entry CODES)) }
    ensures few { IfOk result (λ used. length used.names ≤ MOST_TYPES + 1) }
    ensures err { IfErr result (λ e. e ≡ Memory) }
{
    let mut used = UsedTypes {
        names: Names::new(alloc),
        group_types: Vec::new(alloc),
        last: 0,
    };
    'codes: for code in 0..keys.codes.end() {
        use_code(alloc, keys, code, &mut used)?;
    }
    prove!(used.names.len() <= keys.typing.types.len() + 1);
    Ok(used)
}
