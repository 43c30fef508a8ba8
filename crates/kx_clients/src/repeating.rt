//! Which keys repeat.
ghost use Rattle.std.specs.Prelude.{◌≡◌};
ghost use Rattle.kx_clients.specs.Repeats.{said_or};

use crate::interpretation_repeats::InterpretationRepeats;
use crate::key_repeat::KeyRepeat;
use crate::key_repeats::KeyRepeats;
use kx_codes::Codes;
use kx_compat::{Interpretation, Interpretations};
use kx_mods::Mods;
use kx_resolve::{KeyModmaps, has_action, keysyms_at};
use kx_symbols::{KeyRecord, Keys};
use std::alloc::{AllocError, Global};

/// What a key says, unless it leaves it to what is so without its word.
fn said_or(said: Option<KeyRepeat>, unsaid: bool) -> bool
    ensures { result ≡ said_or said unsaid }
{
    match said {
        Some(KeyRepeat::Yes) => true,
        Some(KeyRepeat::No) => false,
        Some(KeyRepeat::Default) => unsaid,
        None => unsaid,
    }
}

/// What is read of keys and of interpretations.
#[derive(Clone, Copy)]
pub(crate) struct ReadKeys<'a, 'l> {
    pub codes: &'a Codes<'l>,
    pub keys: &'a Keys,
    /// The real modifiers that keys are mapped to.
    pub modmaps: &'a KeyModmaps,
    pub interpretations: &'a Interpretations,
    /// What keys say of their repeating.
    pub said: &'a KeyRepeats,
    /// Whether the keys of interpretations repeat.
    pub interpreted: &'a InterpretationRepeats,
}

impl<'a, 'l> ReadKeys<'a, 'l> {
    ghost use Rattle.std.specs.Prelude.{◌≡◌, ◌<◌, ◌≤◌, ℕ, IfOk, false, get_or, length};
    ghost use Rattle.std.specs.Option.{option_map};
    ghost use Rattle.kx_basics.specs.declared.limits.TheConstants.{CODES};
    ghost use Rattle.kx_keys.specs.Given.{given, given_in};
    ghost use Rattle.kx_keys.specs.GroupTypes.{has_action, level_keysyms};
    ghost use Rattle.kx_resolve.specs.Modmaps.{modmap_at};
    ghost use Rattle.kx_keys.specs.Vmodmap.{interpretation_at};
    ghost use Rattle.kx_symbols.specs.Keys.{key_at};
    ghost use Rattle.kx_clients.specs.Read.{read_repeats};
    ghost use Rattle.kx_clients.specs.Records.{truth_recorded};
    ghost use Rattle.kx_clients.specs.Repeats.{interpreted, level_repeats, unsaid_repeats};

    /// Whether a keysym's level repeats that has this interpretation.
    fn interpreted(self, interpretation: Option<&Interpretation>) -> bool
        ensures { result ≡ interpreted (truth_recorded self.entry.interpreted.now.by_match)
            (option_map (λ i. i.now) interpretation.entry) }
    {
        match interpretation {
            None => true,
            Some(interpretation) => self
                .interpreted
                .repeats(interpretation.interpretation_match()),
        }
    }

    /// Whether the first level of a key without actions of its own repeats.
    fn level_repeats(self, key: &KeyRecord, modmap: Mods) -> bool
        requires { has_action (given key.now) ≡ false }
        ensures { result ≡ level_repeats (truth_recorded self.entry.interpreted.now.by_match)
            (level_keysyms (given key.now) 0 0)
            (interpretation_at self.entry.interpretations.now modmap (given key.now) 0 0) }
    {
        match keysyms_at(key, 0, 0) {
            [] => false,
            [keysym] => self.interpreted(self.interpretations.choose(*keysym, true, modmap)),
            _ => true,
        }
    }

    /// Whether a key that is mapped to these modifiers repeats without its word.
    fn unsaid_repeats(self, key: &KeyRecord, modmap: Mods) -> bool
        ensures { result ≡ unsaid_repeats (truth_recorded self.entry.interpreted.now.by_match)
            self.entry.interpretations.now modmap (given key.now) }
    {
        if has_action(key) {
            return false;
        }
        self.level_repeats(key, modmap)
    }

    /// The same of the key of a code.
    fn unsaid_repeats_at(self, code: u16) -> bool
        ensures { result ≡ unsaid_repeats (truth_recorded self.entry.interpreted.now.by_match)
            self.entry.interpretations.now (modmap_at self.entry.modmaps.now code)
            (given_in (key_at self.entry.keys.now code)) }
    {
        match self.keys.key(code) {
            Some(key) => self.unsaid_repeats(key, self.modmaps.key(code)),
            None => false,
        }
    }

    /// Whether the key of a code repeats.
    fn repeats(self, code: u16) -> bool
        ensures { result ≡ read_repeats self.entry code }
    {
        if self.codes.name_of(code).is_none() {
            return false;
        }
        said_or(self.said.key(code), self.unsaid_repeats_at(code))
    }

    /// Whether keys repeat, by code up to the last that has a name.
    pub(crate) fn repeating(self, alloc: Global) -> Result<Vec<bool>, AllocError>
        ensures repeats { IfOk result (λ all. (code : ℕ) → code < CODES
            → get_or all.items code false ≡ read_repeats self.entry code) }
        ensures few { IfOk result (λ all. length all.items ≤ CODES) }
    {
        let mut all = Vec::new(alloc);
        'codes: for code in 0..self.codes.end() {
            all.push(self.repeats(code))?;
        }
        Ok(all)
    }
}
