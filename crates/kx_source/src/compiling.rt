//! From a source to tables.
ghost use Rattle.std.specs.Prelude.{◌≡◌, ◌⊎◌, [], IfErr, IfOk, OnOk};
ghost use Rattle.kx_include.specs.Bodies.{AreBodies};
ghost use Rattle.kx_include.specs.Held.{StandsFor};
ghost use Rattle.kx_include.specs.IncludeFaults.{IsWhole};
ghost use Rattle.kx_include.specs.Library.{Library as LibraryValue};
ghost use Rattle.kx_lex.specs.declared.fault.Fault.TheVariants.{Memory};
ghost use Rattle.kx_virtual_mods.specs.Declarations.{AreModNames, modifier_bodies, modifier_faults};
ghost use Rattle.kx_source.specs.Meaning.{keymap_in};
ghost use Rattle.kx_source.specs.Source.{HasFault, HasFaultIn, HoldsAll, Means, statement_faults};
ghost use Rattle.kx_tables.specs.Keymap.{keymap_of};

use crate::leaving::{Ending, GivenBack, Left};
use crate::observer::{Nobody, Observer};
use crate::parts::parts_of;
use crate::sections::{Expanded, Sections};
use ks_core::{NameTable, Notes};
use kx_codes::codes;
use kx_include::{Files, Library};
use kx_lex::Fault;
use kx_tables::Owned;
use kx_types::types;
use kx_virtual_mods::ModNames;
use std::alloc::Global;

/// The tables of what the bodies of any library say, and what was passed over.
fn tables_over<E: Ending, O: Observer>(
    alloc: Global,
    expanded: Expanded,
    observer: &mut O,
) -> Result<(Owned, Notes), Fault>
    requires names { AreModNames expanded.modifiers.now (modifier_bodies expanded.bodies.now) }
    requires faultless { modifier_faults (modifier_bodies expanded.bodies.now) ≡ [] }
    ensures faultless { OnOk result ((library : LibraryValue)
        → AreBodies library expanded.entry.bodies.now
        → statement_faults expanded.entry.names.now library ≡ []) }
    ensures holds { IfOk result (λ made. (library : LibraryValue)
        → AreBodies library expanded.entry.bodies.now
        → HoldsAll expanded.entry.names.now library made.0) }
    ensures keymap { IfOk result (λ made. (library : LibraryValue)
        → AreBodies library expanded.entry.bodies.now
        → keymap_of made.0 ≡ keymap_in expanded.entry.names.now library) }
    ensures fault { IfErr result (λ e. (library : LibraryValue) → IsWhole library
        → AreBodies library expanded.entry.bodies.now
        → (e ≡ Memory) ⊎ HasFaultIn expanded.entry.names.now library e) }
{
    let codes = codes(alloc, &expanded.bodies.keycodes)?;
    let types = types(alloc, &expanded.bodies.types, expanded.modifiers)?;
    let sections = Sections {
        expanded,
        codes: &codes,
        types: &types,
    };
    let (parts, notes) = parts_of::<E, O>(alloc, sections, observer)?;
    E::end(codes);
    E::end(types);
    Ok((Owned::from_sound(parts), notes))
}

/// The tables of what a source and its files say, and what was passed over. The library may lack what no include reaches: it is
/// the whole one that is spoken of.
fn tables_of<E: Ending, O: Observer>(
    alloc: Global,
    library: &Library,
    names: &NameTable,
    observer: &mut O,
) -> Result<(Owned, Notes), Fault>
    ensures whole { OnOk result ((whole : LibraryValue) → StandsFor library.now whole
        → IsWhole whole) }
    ensures faultless { OnOk result ((whole : LibraryValue) → StandsFor library.now whole
        → statement_faults names.now whole ≡ []) }
    ensures holds { IfOk result (λ made. (whole : LibraryValue) → StandsFor library.now whole
        → HoldsAll names.now whole made.0) }
    ensures keymap { IfOk result (λ made. (whole : LibraryValue) → StandsFor library.now whole
        → keymap_of made.0 ≡ keymap_in names.now whole) }
    ensures fault { IfErr result (λ e. (whole : LibraryValue) → StandsFor library.now whole
        → (e ≡ Memory) ⊎ HasFaultIn names.now whole e) }
{
    let bodies = library.expand(alloc)?;
    let modifiers = ModNames::of(alloc, &bodies)?;
    let expanded = Expanded {
        bodies: &bodies,
        names,
        modifiers: &modifiers,
    };
    let made = tables_over::<E, O>(alloc, expanded, observer);
    E::end(bodies);
    E::end(modifiers);
    made
}

/// The tables of a source, and what was passed over: they hold the keys, with their names, that the source's statements
/// resolve to, and their keymap is the one that the statements mean.
///
/// # Errors
/// A fault of the source with its place, or `Memory`.
pub fn tables(
    alloc: Global,
    source: &[u8],
    files: &Files,
    names: &NameTable,
) -> Result<(Owned, Notes), Fault>
    ensures means { IfOk result (λ made. Means source.now files.now names.now made.0) }
    ensures fault { IfErr result (λ e. (e ≡ Memory) ⊎ HasFault source.now files.now names.now e) }
{
    let library = Library::of_source(alloc, source, files)?;
    tables_of::<GivenBack, Nobody>(alloc, &library, names, &mut Nobody)
}

/// The same as [`tables`], where an observer is shown what was read of the source before it is given back.
///
/// # Errors
/// A fault of the source with its place, or `Memory`.
pub fn tables_seen<O: Observer>(
    alloc: Global,
    source: &[u8],
    files: &Files,
    names: &NameTable,
    observer: &mut O,
) -> Result<(Owned, Notes), Fault>
    ensures means { IfOk result (λ made. Means source.now files.now names.now made.0) }
    ensures fault { IfErr result (λ e. (e ≡ Memory) ⊎ HasFault source.now files.now names.now e) }
{
    let library = Library::of_source(alloc, source, files)?;
    tables_of::<GivenBack, O>(alloc, &library, names, observer)
}

/// The same as [`tables`], for a program that ends soon after: what was read of the source isn't given back, but left to the
/// system, once the observer was shown it.
///
/// # Errors
/// A fault of the source with its place, or `Memory`.
pub fn tables_once<O: Observer>(
    alloc: Global,
    source: &[u8],
    files: &Files,
    names: &NameTable,
    observer: &mut O,
) -> Result<(Owned, Notes), Fault>
    ensures means { IfOk result (λ made. Means source.now files.now names.now made.0) }
    ensures fault { IfErr result (λ e. (e ≡ Memory) ⊎ HasFault source.now files.now names.now e) }
{
    let library = Library::of_source(alloc, source, files)?;
    let made = tables_of::<Left, O>(alloc, &library, names, observer);
    Left::end(library);
    made
}
