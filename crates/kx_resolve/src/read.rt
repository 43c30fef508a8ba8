//! What is read of a keymap.
use crate::key_modmaps::KeyModmaps;
use crate::named_keys::NamedKeys;
use kx_compat::Interpretations;
use kx_group_names::GroupNames;
use kx_indicators::Indicators;
use kx_mods::Mods;

/// The keys of a keymap, with what they are mapped to and what is said of them by their keysyms and modifiers.
#[derive(Clone, Copy)]
pub struct InterpretedKeys<'a, 'l> {
    /// The keys by their codes.
    pub named: NamedKeys<'a, 'l>,
    /// The real modifiers that keys are mapped to.
    pub modmaps: &'a KeyModmaps,
    /// What is said of keys by their keysyms and modifiers.
    pub interpretations: &'a Interpretations,
}

/// What is read of a keymap's sections.
#[derive(Clone, Copy)]
pub struct Read<'a, 'l> {
    /// The keys with their interpretations.
    pub keys: InterpretedKeys<'a, 'l>,
    /// What each virtual modifier stands for, by its number.
    pub stands: &'a [Mods],
    /// What lights indicators, by their numbers.
    pub indicators: &'a Indicators,
    /// The names of groups.
    pub group_names: &'a GroupNames,
}
