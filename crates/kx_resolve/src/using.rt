//! The key types that keys use, as rows.
ghost use Rattle.std.specs.Prelude.{◌≡◌, ◌≤◌, ◌+◌, ℕ, All, IfErr, IfOk, OnOk, List, [], Some, length, map, slice_get};
ghost use Rattle.kx_basics.specs.declared.limits.TheConstants.{MOST_NAME_BYTES};
ghost use Rattle.kx_builder.specs.Valid.{TypeIsValid};
ghost use Rattle.kx_builder.specs.Pushes.{with_type};
ghost use Rattle.kx_keys.specs.Rows.{RowsShow, entry_rows, mods_of};
ghost use Rattle.kx_lex.specs.declared.fault.Fault.TheVariants.{Memory};
ghost use Rattle.kx_keys.specs.Keys.{type_with};
ghost use Rattle.kx_resolve.specs.Read.{TypeHoldsIn, type_in};
ghost use Rattle.kx_keys.specs.Standing.{real_by};
ghost use Rattle.kx_types.specs.declared.limits.TheConstants.{MOST_TYPES};

use crate::read::Read;
use crate::tables_builder::TablesBuilder;
use kx_keys::rows::TypeRows;
use kx_lex::Fault;
use kx_mods::Mods;
use kx_types::KeyType;
use kx_virtual_mods::Names;
use std::alloc::Global;

/// Pushes a type under a name.
fn push_with(
    alloc: Global,
    builder: &mut TablesBuilder,
    name: &[u8],
    key_type: &KeyType,
    stands: &[Mods],
) -> Result<(), Fault>
    requires keyless { builder.old.keys ≡ [] }
    requires few { length builder.old.types ≤ MOST_TYPES }
    requires short { length name.now ≤ MOST_NAME_BYTES }
    ensures pushed { OnOk result (builder.new
        ≡ with_type builder.old (type_with (real_by stands.now) name.now key_type.now)) }
    ensures shows { OnOk result (RowsShow (real_by stands.now) key_type.now
        (mods_of (real_by stands.now key_type.now.modifiers))
        (entry_rows (real_by stands.now) key_type.now.entries)) }
    ensures valid { OnOk result (TypeIsValid
        (type_with (real_by stands.now) name.now key_type.now)) }
    ensures err { IfErr result (λ e. e ≡ Memory) }
{
    let rows = TypeRows::of(alloc, key_type, stands)?;
    builder.push_type(name, rows.mods, key_type.levels(), rows.entries.as_slice())
}

/// Pushes the type of a name.
fn push_type(
    alloc: Global,
    builder: &mut TablesBuilder,
    read: Read,
    name: &[u8],
) -> Result<(), Fault>
    requires keyless { builder.old.keys ≡ [] }
    requires few { length builder.old.types ≤ MOST_TYPES }
    requires short { length name.now ≤ MOST_NAME_BYTES }
    ensures pushed { OnOk result (builder.new
        ≡ with_type builder.old (type_in read.entry name.now)) }
    ensures holds { OnOk result (TypeHoldsIn read.entry name.now) }
    ensures err { IfErr result (λ e. e ≡ Memory) }
{
    match read.keys.named.typing.types.named(name) {
        None => push_with(
            alloc,
            builder,
            name,
            &KeyType::one_level(alloc),
            read.stands,
        ),
        Some(key_type) => push_with(alloc, builder, name, key_type, read.stands),
    }
}

/// Pushes the type of a name by its number.
fn push_numbered(
    alloc: Global,
    builder: &mut TablesBuilder,
    read: Read,
    used: &Names,
    number: usize,
) -> Result<(), Fault>
    requires keyless { builder.old.keys ≡ [] }
    requires few { length builder.old.types ≤ MOST_TYPES }
    requires short { All (λ name. length name ≤ MOST_NAME_BYTES) used.now }
    ensures pushed { OnOk result ((name : List ℕ) → slice_get used.now number ≡ Some name
        → builder.new ≡ with_type builder.old (type_in read.entry name)) }
    ensures holds { OnOk result ((name : List ℕ) → slice_get used.now number ≡ Some name
        → TypeHoldsIn read.entry name) }
    ensures err { IfErr result (λ e. e ≡ Memory) }
{
    match used.name(number) {
        Some(name) => push_type(alloc, builder, read, name),
        None => Ok(()),
    }
}

/// A builder with the types of these names.
pub(crate) fn with_types(alloc: Global, read: Read, used: &Names) -> Result<TablesBuilder, Fault>
    requires few { length used.now ≤ MOST_TYPES + 1 }
    requires short { All (λ name. length name ≤ MOST_NAME_BYTES) used.now }
    ensures types { IfOk result (λ builder.
        builder ≡ record { types = map (type_in read.entry) used.now; keys = [] }) }
    ensures hold { OnOk result (All (TypeHoldsIn read.entry) used.now) }
    ensures err { IfErr result (λ e. e ≡ Memory) }
{
    let mut builder = TablesBuilder::new(alloc);
    'names: for number in 0..used.len() {
        push_numbered(alloc, &mut builder, read, used, number)?;
    }
    Ok(builder)
}
