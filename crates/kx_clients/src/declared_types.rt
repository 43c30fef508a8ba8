//! The key types that a source declares, with what their entries choose among real modifiers.
ghost use Rattle.std.specs.Prelude.{◌≡◌, ◌++◌, ◌<◌, IfOk, OnOk, Some, length, map, slice_get};
ghost use Rattle.std.specs.List.{flat_map};
ghost use Rattle.kx_keys.specs.Keys.{type_with};
ghost use Rattle.kx_types.specs.Types.{names_in, type_named};
ghost use Rattle.kx_virtual_mods.specs.Sets.{real_of};
ghost use Rattle.kx_virtual_mods.specs.Standing.{stands_for};
ghost use Rattle.kx_clients.specs.DeclaredTypes.{defined_type};
ghost use Rattle.kx_clients.specs.VirtualModifiers.{mods_among, stands_among};

use crate::virtual_modifier::VirtualModifier;
use kx_lex::Bytes;
use kx_mods::Mods;
use kx_resolve::TypeRows;
use kx_tables::EntryRow;
use kx_types::{KeyType, Types};
use std::alloc::{AllocError, Global};
use std::marker::Model;

/// A key type of a source.
#[derive(Drop)]
pub struct DeclaredType {
    name: Bytes,
    levels: u8,
    rows: TypeRows,
}

impl Model for DeclaredType {
    ghost use Rattle.kx_builder.specs.Resolved.{ResolvedType};

    ghost Value = { ResolvedType };

    ghost view = { λ t. record {
      name = t.name;
      mods = t.rows.mods;
      levels = t.levels;
      entries = t.rows.entries.items;
    } };
}

impl DeclaredType {
    ghost use Rattle.std.specs.Prelude.{◌≡◌, IfOk};
    ghost use Rattle.kx_keys.specs.Keys.{type_with};
    ghost use Rattle.kx_virtual_mods.specs.Sets.{real_of};
    ghost use Rattle.kx_virtual_mods.specs.Standing.{stands_for};

    fn of(
        alloc: Global,
        name: &[u8],
        key_type: &KeyType,
        stands: &[Mods],
    ) -> Result<DeclaredType, AllocError>
        ensures { IfOk result (λ t.
            t ≡ type_with (real_of (stands_for stands.now)) name.now key_type.now) }
    {
        Ok(DeclaredType {
            name: Bytes::of(alloc, name)?,
            levels: key_type.levels(),
            rows: TypeRows::of(alloc, key_type, stands)?,
        })
    }

    /// Its name.
    pub fn name(&self) -> &[u8]
        ensures { result.now ≡ self.now.name }
    {
        self.name.as_slice()
    }

    /// The real modifiers that select a level.
    pub fn mods(&self) -> Mods
        ensures { result ≡ self.now.mods }
    {
        self.rows.mods
    }

    /// How many levels it has.
    pub fn levels(&self) -> u8
        ensures { result ≡ self.now.levels }
    {
        self.levels
    }

    /// Its entries, of which no two have the same modifiers.
    pub fn entries(&self) -> &[EntryRow]
        ensures { result.now ≡ self.now.entries }
    {
        self.rows.entries.as_slice()
    }
}

/// What virtual modifiers stand for, by their numbers.
fn stands_of(alloc: Global, modifiers: &[VirtualModifier]) -> Result<Vec<Mods>, AllocError>
    ensures { IfOk result (λ stands. stands.items ≡ stands_among modifiers.now) }
{
    modifiers
        .iter()
        .map(|modifier| modifier.mods)
        .collect(alloc)
}

/// The name of the type at a place.
#[tactic(auto, using(crate::proofs::Lists::is_within))]
fn name_at(types: &Types, place: usize) -> &[u8]
    requires { place < length types.now }
    ensures { slice_get (names_in types.now) place ≡ Some result.now }
{
    match types.at(place) {
        Some((name, _)) => name,
        None => &[],
    }
}

/// Adds the type of a name, where it has a definition.
fn add_declared(
    alloc: Global,
    types: &Types,
    stands: &[Mods],
    name: &[u8],
    declared: &mut Vec<DeclaredType>,
) -> Result<(), AllocError>
    ensures { OnOk result (declared.new.items ≡ declared.old.items
        ++ defined_type (real_of (stands_for stands.now)) (type_named types.now) name.now) }
{
    if let Some(key_type) = types.named(name) {
        declared.push(DeclaredType::of(alloc, name, key_type, stands)?)?;
    }
    Ok(())
}

/// The types, where virtual modifiers stand for these.
fn all_declared(
    alloc: Global,
    types: &Types,
    stands: &[Mods],
) -> Result<Vec<DeclaredType>, AllocError>
    ensures { IfOk result (λ declared. declared.items
        ≡ flat_map (defined_type (real_of (stands_for stands.now)) (type_named types.now))
        (names_in types.now)) }
{
    let mut declared = Vec::new(alloc);
    'places: for place in 0..types.len() {
        add_declared(alloc, types, stands, name_at(types, place), &mut declared)?;
    }
    Ok(declared)
}

/// The key types by first appearance, where these are the virtual modifiers by their numbers.
pub(crate) fn declared_types(
    alloc: Global,
    types: &Types,
    modifiers: &[VirtualModifier],
) -> Result<Vec<DeclaredType>, AllocError>
    ensures { IfOk result (λ declared. declared.items
        ≡ flat_map (defined_type (real_of (mods_among modifiers.now)) (type_named types.now))
        (names_in types.now)) }
{
    let stands = stands_of(alloc, modifiers)?;
    all_declared(alloc, types, stands.as_slice())
}
