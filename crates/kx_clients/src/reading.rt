//! From a source to what its image leaves out.
ghost use Rattle.std.specs.Prelude.{◌≡◌, ◌⊎◌, [], IfErr, IfOk, OnOk};
ghost use Rattle.kx_include.specs.Bodies.{AreBodies};
ghost use Rattle.kx_include.specs.Held.{StandsFor};
ghost use Rattle.kx_include.specs.IncludeFaults.{IsWhole};
ghost use Rattle.kx_include.specs.Library.{Library as LibraryValue};
ghost use Rattle.kx_lex.specs.declared.fault.Fault.TheVariants.{Memory};
ghost use Rattle.kx_virtual_mods.specs.Declarations.{AreModNames, modifier_bodies};
ghost use Rattle.kx_source.specs.Source.{HasFault, HasFaultIn};
ghost use Rattle.kx_clients.specs.LeavesOut.{AreLeftOut, LeavesOut};

use crate::aliases::known_aliases;
use crate::declared_types::declared_types;
use crate::indicators::indicator_names;
use crate::left::LeftOut;
use crate::sections::Sections;
use ks_core::NameTable;
use kx_codes::codes;
use kx_include::{Bodies, Files, Library};
use kx_lex::Fault;
use kx_types::types;
use kx_virtual_mods::ModNames;
use std::alloc::Global;

/// What is left out of what the bodies of any library say.
fn left_out_over(
    alloc: Global,
    names: &NameTable,
    bodies: &Bodies,
    modifiers: &ModNames,
) -> Result<LeftOut, Fault>
    requires names { AreModNames modifiers.now (modifier_bodies bodies.now) }
    ensures are { IfOk result (λ left. (library : LibraryValue) → AreBodies library bodies.now
        → AreLeftOut names.now library left) }
    ensures fault { IfErr result (λ e. (library : LibraryValue) → IsWhole library
        → AreBodies library bodies.now → (e ≡ Memory) ⊎ HasFaultIn names.now library e) }
{
    let codes = codes(alloc, &bodies.keycodes)?;
    let aliases = known_aliases(alloc, &bodies.keycodes, &codes)?;
    let indicators = indicator_names(alloc, &bodies.keycodes)?;
    let types = types(alloc, &bodies.types, modifiers)?;
    let sections = Sections {
        bodies,
        names,
        modifiers,
        codes: &codes,
        types: &types,
    };
    let keys = sections.of_keys(alloc)?;
    let declared = declared_types(alloc, &types, keys.modifiers.as_slice())?;
    Ok(LeftOut::of(
        aliases,
        indicators,
        keys.modifiers,
        declared,
        keys.repeating,
    ))
}

/// What is left out of what a source and its files say. The library may lack what no include reaches: it is the whole one that is
/// spoken of.
fn left_out_of(alloc: Global, library: &Library, names: &NameTable) -> Result<LeftOut, Fault>
    ensures whole { OnOk result ((whole : LibraryValue) → StandsFor library.now whole
        → IsWhole whole) }
    ensures are { IfOk result (λ left. (whole : LibraryValue) → StandsFor library.now whole
        → AreLeftOut names.now whole left) }
    ensures fault { IfErr result (λ e. (whole : LibraryValue) → StandsFor library.now whole
        → (e ≡ Memory) ⊎ HasFaultIn names.now whole e) }
{
    let bodies = library.expand(alloc)?;
    let modifiers = ModNames::of(alloc, &bodies)?;
    left_out_over(alloc, names, &bodies, &modifiers)
}

/// What a source and its files say that the source's image leaves out.
///
/// # Errors
/// A fault of the source with its place, or `Memory`. The fields and the indicators of a compat section, and the names of
/// groups, aren't all judged: a source whose fault is of these may be answered.
pub fn left_out(
    alloc: Global,
    source: &[u8],
    files: &Files,
    names: &NameTable,
) -> Result<LeftOut, Fault>
    ensures left { IfOk result (λ left. LeavesOut source.now files.now names.now left) }
    ensures fault { IfErr result (λ e. (e ≡ Memory) ⊎ HasFault source.now files.now names.now e) }
{
    let library = Library::of_source(alloc, source, files)?;
    left_out_of(alloc, &library, names)
}
