//! The keys of a source's symbols, and what clients are told of them.
use crate::interpretation_repeats::InterpretationRepeats;
use crate::key_repeats::KeyRepeats;
use crate::repeating::ReadKeys;
use crate::virtual_modifier::{VirtualModifier, virtual_modifiers};
use ks_core::NameTable;
use kx_codes::Codes;
use kx_compat::{Interpretations, interpretations};
use kx_include::Bodies;
use kx_lex::Fault;
use kx_modmaps::modifier_maps;
use kx_resolve::{InterpretedKeys, KeyModmaps, NamedKeys, Typing, virtual_modifier_masks};
use kx_symbols::{Keys, symbols};
use kx_types::Types;
use kx_virtual_mods::ModNames;
use std::alloc::Global;

/// What the keys of a source are read from.
#[derive(Clone, Copy)]
pub(crate) struct Sections<'a, 'l> {
    pub bodies: &'a Bodies<'l>,
    /// The names of keysyms.
    pub names: &'a NameTable,
    pub modifiers: &'a ModNames,
    pub codes: &'a Codes<'l>,
    pub types: &'a Types,
}

/// Keys, and what they are mapped to.
#[derive(Drop)]
struct MappedKeys {
    keys: Keys,
    modmaps: KeyModmaps,
}

/// What clients are told of keys: the virtual modifiers that they bear, and which of them repeat.
#[derive(Drop)]
pub(crate) struct OfKeys {
    pub modifiers: Vec<VirtualModifier>,
    /// By code.
    pub repeating: Vec<bool>,
}

impl<'a, 'l> Sections<'a, 'l> {
    ghost use Rattle.std.specs.Prelude.{◌≡◌, ◌≤◌, ◌∷◌, ℕ, Contains, IfErr, IfOk, length};
    ghost use Rattle.kx_basics.specs.declared.limits.TheConstants.{CODES};
    ghost use Rattle.kx_codes.specs.Codes.{name_of};
    ghost use Rattle.kx_compat.specs.Meaning.{compat_faults};
    ghost use Rattle.kx_include.specs.Shared.{expanded_body};
    ghost use Rattle.kx_lex.specs.declared.fault.Fault.TheVariants.{Memory};
    ghost use Rattle.kx_merge.specs.Reports.{ReportsOrRunsOut};
    ghost use Rattle.kx_modmaps.specs.Maps.{map_offers_of};
    ghost use Rattle.kx_keys.specs.Given.{given_in};
    ghost use Rattle.kx_keys.specs.Mapping.{modmap_of};
    ghost use Rattle.kx_resolve.specs.Modmaps.{modmap_at};
    ghost use Rattle.kx_keys.specs.Typing.{typing_by, typing_of};
    ghost use Rattle.kx_source.specs.Made.{mapped_faults};
    ghost use Rattle.kx_source.specs.Meaning.{mapping_by};
    ghost use Rattle.kx_symbols.specs.Keys.{KeysShow, key_at};
    ghost use Rattle.kx_clients.specs.Made.{AreOfKeys, Repeat, Stand, told_faults};

    fn typing(self) -> Typing<'a>
        ensures { typing_of result ≡ typing_by self.entry.types.now self.entry.names.now.letters }
    {
        Typing {
            types: self.types,
            letters: self.names.letters(),
        }
    }

    /// The keys, and what they are mapped to.
    fn mapped(self, alloc: Global) -> Result<MappedKeys, Fault>
        ensures keys { IfOk result (λ found. KeysShow found.keys self.entry.codes.now
            self.entry.names.now self.entry.modifiers.now.names
            (expanded_body self.entry.bodies.now.symbols)) }
        ensures mapped { IfOk result (λ found. (code : ℕ) → modmap_at found.modmaps code
            ≡ modmap_of (mapping_by (name_of self.entry.codes.now)
            (λ c. given_in (key_at found.keys c))
            (typing_by self.entry.types.now self.entry.names.now.letters)
            (map_offers_of self.entry.codes.now self.entry.names.now
            self.entry.modifiers.now.names (expanded_body self.entry.bodies.now.symbols))) code) }
        ensures faults { ReportsOrRunsOut result
            (mapped_faults self.entry.codes.now self.entry.names.now
            self.entry.modifiers.now.names (expanded_body self.entry.bodies.now.symbols)) }
    {
        let symbols_body = &self.bodies.symbols;
        let (keys, _) = symbols(alloc, symbols_body, self.codes, self.names, self.modifiers)?;
        let (maps, _) = modifier_maps(alloc, symbols_body, self.codes, self.names, self.modifiers)?;
        let named = NamedKeys {
            codes: self.codes,
            typing: self.typing(),
            keys: &keys,
        };
        let modmaps = KeyModmaps::of(alloc, named, maps)?;
        Ok(MappedKeys { keys, modmaps })
    }

    /// The virtual modifiers, with what they stand for.
    fn virtual_modifiers(
        self,
        alloc: Global,
        mapped: &MappedKeys,
        interpretations: &Interpretations,
    ) -> Result<Vec<VirtualModifier>, Fault>
        ensures stand { IfOk result (λ modifiers. Stand self.entry.names.now
            self.entry.modifiers.now (expanded_body self.entry.bodies.now.compat)
            (expanded_body self.entry.bodies.now.symbols) self.entry.codes.now
            self.entry.types.now mapped.now.keys (modmap_at mapped.now.modmaps)
            interpretations.now modifiers.items) }
        ensures err { IfErr result (λ e. e ≡ Memory) }
    {
        let named = NamedKeys {
            codes: self.codes,
            typing: self.typing(),
            keys: &mapped.keys,
        };
        let keys = InterpretedKeys {
            named,
            modmaps: &mapped.modmaps,
            interpretations,
        };
        let stands = virtual_modifier_masks(alloc, keys, self.modifiers.declared_masks())?;
        Ok(virtual_modifiers(alloc, self.modifiers, stands.as_slice())?)
    }

    /// Whether keys repeat, by code.
    fn repeating(
        self,
        alloc: Global,
        mapped: &MappedKeys,
        interpretations: &Interpretations,
    ) -> Result<Vec<bool>, Fault>
        ensures repeat { IfOk result (λ repeating. Repeat self.entry.names.now
            self.entry.modifiers.now (expanded_body self.entry.bodies.now.compat)
            (expanded_body self.entry.bodies.now.symbols) self.entry.codes.now
            self.entry.types.now mapped.now.keys (modmap_at mapped.now.modmaps)
            interpretations.now repeating.items) }
        ensures few { IfOk result (λ repeating. length repeating.items ≤ CODES) }
        ensures err { IfErr result (λ e. Contains (Memory ∷ compat_faults self.entry.names.now
            self.entry.modifiers.now.names (expanded_body self.entry.bodies.now.compat)) e) }
    {
        let said = KeyRepeats::of(alloc, &self.bodies.symbols, self.codes)?;
        let interpreted = InterpretationRepeats::of(
            alloc,
            &self.bodies.compat,
            self.modifiers,
            self.names,
        )?;
        let read = ReadKeys {
            codes: self.codes,
            keys: &mapped.keys,
            modmaps: &mapped.modmaps,
            interpretations,
            said: &said,
            interpreted: &interpreted,
        };
        Ok(read.repeating(alloc)?)
    }

    /// What clients are told of keys.
    pub(crate) fn of_keys(self, alloc: Global) -> Result<OfKeys, Fault>
        ensures are { IfOk result (λ told. AreOfKeys self.entry.names.now
            self.entry.modifiers.now (expanded_body self.entry.bodies.now.compat)
            (expanded_body self.entry.bodies.now.symbols) self.entry.codes.now
            self.entry.types.now told.modifiers.items told.repeating.items) }
        ensures err { IfErr result (λ e. Contains (Memory ∷ told_faults self.entry.codes.now
            self.entry.names.now self.entry.modifiers.now.names
            (expanded_body self.entry.bodies.now.compat)
            (expanded_body self.entry.bodies.now.symbols)) e) }
    {
        let mapped = self.mapped(alloc)?;
        let (interpretations, _) = interpretations(
            alloc,
            &self.bodies.compat,
            self.modifiers,
            self.names,
        )?;
        let modifiers = self.virtual_modifiers(alloc, &mapped, &interpretations)?;
        let repeating = self.repeating(alloc, &mapped, &interpretations)?;
        Ok(OfKeys {
            modifiers,
            repeating,
        })
    }
}
