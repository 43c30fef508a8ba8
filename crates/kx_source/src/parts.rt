//! The tables of what is read of a source's bodies.
ghost use Rattle.std.specs.Prelude.{◌≡◌, IfOk};
ghost use Rattle.ks_core.specs.Table.{KeysymTable, letters_of};
ghost use Rattle.kx_compat.specs.Meaning.{interpretations_of};
ghost use Rattle.kx_merge.specs.Reports.{ReportsOrRunsOut};
ghost use Rattle.kx_resolve.specs.Modmaps.{modmap_at};
ghost use Rattle.kx_keys.specs.Standing.{real_by};
ghost use Rattle.kx_source.specs.Sections.{InterpretedBy, LitOf, MadeOf, compat_of, faults_of_interpreted, faults_of_lit, faults_of_parts, modifiers_named, names_of};
ghost use Rattle.kx_tables.specs.RawTables.{content_of};
ghost use Rattle.kx_tables.specs.Sound.{Sound};

use crate::keys::{MappedKeys, read_keys};
use crate::leaving::Ending;
use crate::observer::{Observer, ReadSource};
use crate::sections::Sections;
use ks_core::Notes;
use kx_compat::interpretations;
use kx_group_names::group_names;
use kx_indicators::indicators;
use kx_lex::Fault;
use kx_mods::Mods;
use kx_resolve::{InterpretedKeys, NamedKeys, Read, Typing, resolve, virtual_modifier_masks};
use kx_tables::RawTables;
use std::alloc::Global;

/// The tables of keys and types, with the indicators and the names of groups, and what was passed over. `stands` is what
/// each virtual modifier stands for, by its number.
fn lit_parts<E: Ending>(
    alloc: Global,
    sections: Sections,
    keys: InterpretedKeys,
    stands: &[Mods],
) -> Result<(RawTables, Notes), Fault>
    ensures lit { IfOk result (λ made.
        LitOf sections.entry keys.entry (real_by stands.now) (content_of made.0)) }
    ensures sound { IfOk result (λ made. Sound (content_of made.0)) }
    ensures faults { ReportsOrRunsOut result (faults_of_lit sections.entry) }
{
    let bodies = sections.expanded.bodies;
    let groups = group_names(alloc, &bodies.symbols)?;
    let indicators = indicators(alloc, &bodies.compat, sections.expanded.modifiers)?;
    let read = Read {
        keys,
        stands,
        indicators: &indicators,
        group_names: &groups,
    };
    let made = resolve(alloc, read)?;
    E::end(groups);
    E::end(indicators);
    Ok(made)
}

/// The tables of keys and types, with what the keymap says besides by interpretations that are read, and what was passed
/// over.
fn standing_parts<E: Ending>(
    alloc: Global,
    sections: Sections,
    keys: InterpretedKeys,
) -> Result<(RawTables, Notes), Fault>
    ensures interpreted { (names : KeysymTable) → keys.entry.interpretations.now
        ≡ interpretations_of names (modifiers_named sections.entry) (compat_of sections.entry)
        → letters_of keys.entry.named.typing.letters ≡ names.letters → IfOk result (λ made.
        InterpretedBy sections.entry names keys.entry.named.codes.now
        keys.entry.named.typing.types.now keys.entry.named.keys.now
        (modmap_at keys.entry.modmaps.now) (content_of made.0)) }
    ensures sound { IfOk result (λ made. Sound (content_of made.0)) }
    ensures faults { ReportsOrRunsOut result (faults_of_lit sections.entry) }
{
    let declared = sections.expanded.modifiers.declared_masks();
    let stands = virtual_modifier_masks(alloc, keys, declared)?;
    let made = lit_parts::<E>(alloc, sections, keys, stands.as_slice())?;
    E::end(stands);
    Ok(made)
}

/// The tables of keys and types, with what the keymap says besides, and what was passed over in it.
fn interpreted_parts<E: Ending>(
    alloc: Global,
    sections: Sections,
    mapped: &MappedKeys,
) -> Result<(RawTables, Notes), Fault>
    ensures interpreted { IfOk result (λ made.
        InterpretedBy sections.entry (names_of sections.entry) sections.entry.codes.now
        sections.entry.types.now mapped.now.keys (modmap_at mapped.now.modmaps)
        (content_of made.0)) }
    ensures sound { IfOk result (λ made. Sound (content_of made.0)) }
    ensures faults { ReportsOrRunsOut result (faults_of_interpreted sections.entry) }
{
    let (modifiers, names) = (sections.expanded.modifiers, sections.expanded.names);
    let compat_body = &sections.expanded.bodies.compat;
    let (interpretations, passed) = interpretations(alloc, compat_body, modifiers, names)?;
    let named = NamedKeys {
        codes: sections.codes,
        typing: Typing {
            types: sections.types,
            letters: names.letters(),
        },
        keys: &mapped.keys,
    };
    let keys = InterpretedKeys {
        named,
        modmaps: &mapped.modmaps,
        interpretations: &interpretations,
    };
    let (parts, lost) = standing_parts::<E>(alloc, sections, keys)?;
    E::end(interpretations);
    Ok((parts, passed.saturating_add(lost)))
}

/// The tables of bodies whose codes and types are read, and what was passed over. The observer is shown what was read.
pub(crate) fn parts_of<E: Ending, O: Observer>(
    alloc: Global,
    sections: Sections,
    observer: &mut O,
) -> Result<(RawTables, Notes), Fault>
    ensures made { IfOk result (λ made. MadeOf sections.entry (content_of made.0)) }
    ensures sound { IfOk result (λ made. Sound (content_of made.0)) }
    ensures faults { ReportsOrRunsOut result (faults_of_parts sections.entry) }
{
    let mapped = read_keys(alloc, sections)?;
    let (parts, lost) = interpreted_parts::<E>(alloc, sections, &mapped)?;
    let notes = mapped.notes.saturating_add(lost);
    let read = ReadSource {
        bodies: sections.expanded.bodies,
        names: sections.expanded.names,
        codes: sections.codes,
        types: sections.types,
        keys: &mapped.keys,
        notes,
    };
    observer.observe(alloc, read);
    E::end(mapped);
    Ok((parts, notes))
}
