//! The keys of a source, with what they are mapped to.
ghost use Rattle.std.specs.Prelude.{◌≡◌, ℕ, IfOk};
ghost use Rattle.kx_codes.specs.Codes.{name_of};
ghost use Rattle.kx_merge.specs.Reports.{ReportsOrRunsOut};
ghost use Rattle.kx_keys.specs.Mapping.{modmap_of};
ghost use Rattle.kx_resolve.specs.Modmaps.{modmap_at};
ghost use Rattle.kx_modmaps.specs.Maps.{map_offers_of};
ghost use Rattle.kx_source.specs.Meaning.{mapping_by};
ghost use Rattle.kx_source.specs.Sections.{faults_of_keys, modifiers_named, names_of, symbols_of};
ghost use Rattle.kx_symbols.specs.Keys.{KeysShow, key_at};
ghost use Rattle.kx_keys.specs.Given.{given_in};
ghost use Rattle.kx_keys.specs.Typing.{typing_by};

use crate::sections::Sections;
use ks_core::Notes;
use kx_lex::Fault;
use kx_modmaps::modifier_maps;
use kx_resolve::{KeyModmaps, NamedKeys, Typing};
use kx_symbols::{Keys, symbols};
use std::alloc::Global;

/// Keys, what they are mapped to, and what was passed over.
#[derive(Drop)]
pub(crate) struct MappedKeys {
    pub keys: Keys,
    pub modmaps: KeyModmaps,
    pub notes: Notes,
}

/// The keys of symbols, and what they are mapped to.
pub(crate) fn read_keys(alloc: Global, sections: Sections) -> Result<MappedKeys, Fault>
    ensures keys { IfOk result (λ found.
        KeysShow found.keys sections.entry.codes.now (names_of sections.entry)
        (modifiers_named sections.entry) (symbols_of sections.entry)) }
    ensures mapped { IfOk result (λ found. (code : ℕ) → modmap_at found.modmaps code
        ≡ modmap_of (mapping_by (name_of sections.entry.codes.now)
        (λ c. given_in (key_at found.keys c))
        (typing_by sections.entry.types.now (names_of sections.entry).letters)
        (map_offers_of sections.entry.codes.now (names_of sections.entry)
        (modifiers_named sections.entry) (symbols_of sections.entry))) code) }
    ensures faults { ReportsOrRunsOut result (faults_of_keys sections.entry) }
{
    let (names, modifiers) = (sections.expanded.names, sections.expanded.modifiers);
    let (symbols_body, codes) = (&sections.expanded.bodies.symbols, sections.codes);
    let (keys, unknown) = symbols(alloc, symbols_body, codes, names, modifiers)?;
    let (maps, unmapped) = modifier_maps(alloc, symbols_body, codes, names, modifiers)?;
    let named = NamedKeys {
        codes,
        typing: Typing {
            types: sections.types,
            letters: names.letters(),
        },
        keys: &keys,
    };
    let modmaps = KeyModmaps::of(alloc, named, maps)?;
    Ok(MappedKeys {
        keys,
        modmaps,
        notes: unknown.saturating_add(unmapped),
    })
}
