//! Modifier maps by precedence.
ghost use Rattle.std.specs.Prelude.{◌≡◌, ◌++◌, IfErr, IfOk, OnOk, map};
ghost use Rattle.std.specs.List.{flat_map};
ghost use Rattle.indexmap.specs.IndexMap.{keys};
ghost use Rattle.kx_include.specs.Shared.{expanded_body};
ghost use Rattle.kx_lex.specs.declared.fault.Fault.TheVariants.{Memory};
ghost use Rattle.kx_mods.specs.Mods.{mask};
ghost use Rattle.kx_modmaps.specs.Maps.{AreModifierMaps, key_mask, map_faults_of, shown_entry};
ghost use Rattle.kx_modmaps.specs.Shown.{keysym_recorded, only_recorded};
ghost use Rattle.kx_merge.specs.Reports.{ReportsOrRunsOut};

use crate::entries::Context;
use crate::record::Assigned;
use crate::target::Target;
use ks_core::{NameTable, Notes};
use kx_codes::Codes;
use kx_include::Expansion;
use kx_lex::Fault;
use kx_merge::{Plain, merge};
use kx_mods::Mods;
use kx_ordered::Ordered;
use kx_virtual_mods::ModNames;
use std::alloc::Global;
use std::marker::Model;

/// A keysym, by its number, and the modifier of keys that have it; none where a modifier map says so.
#[derive(Clone, Copy, Drop)]
pub struct KeysymEntry {
    pub keysym: u32,
    pub modifier: Mods,
}

/// The modifiers that modifier maps give keys and keysyms.
pub struct ModifierMaps {
    records: Ordered<Target, Plain<Assigned>>,
    keysyms: Vec<KeysymEntry>,
}

impl Drop for ModifierMaps {
    fn drop(self) {
        let ModifierMaps {
            records: _,
            keysyms: _,
        } = self;
    }
}

impl Model for ModifierMaps {
    ghost use Rattle.kx_modmaps.specs.Maps.{Maps};

    ghost Value = { Maps };

    ghost view = { λ m. record { by_target = m.records.entries; by_keysym = m.keysyms.items } };
}

impl ModifierMaps {
    /// The modifiers that modifier maps give the key of a keycode by its name.
    pub fn key(&self, code: u16) -> Mods
        ensures { mask result ≡ key_mask self.now code }
    {
        match self.records.get(&Target::Key(code)) {
            None => Mods::NONE,
            Some(assigned) => assigned.values.present,
        }
    }

    /// The keysyms that modifier maps name, in the order of first appearance.
    pub fn keysyms(&self) -> &[KeysymEntry]
        ensures { result.now ≡ self.now.by_keysym }
    {
        self.keysyms.as_slice()
    }
}

/// The modifier that records have for a keysym.
fn only_among(records: &Ordered<Target, Plain<Assigned>>, target: Target) -> Mods
    ensures { mask result ≡ only_recorded records.now target }
{
    match records.get(&target) {
        None => Mods::NONE,
        Some(assigned) => assigned.values.only.unwrap_or(Mods::NONE),
    }
}

/// Adds the target of a record after others, where it is a keysym.
fn add_keysym(
    records: &Ordered<Target, Plain<Assigned>>,
    named: &(Target, Plain<Assigned>),
    entries: &mut Vec<KeysymEntry>,
) -> Result<(), Fault>
    ensures added { OnOk result
        (map shown_entry entries.new.items ≡ map shown_entry entries.old.items
        ++ keysym_recorded records.now named.now.0) }
    ensures err { IfErr result (λ e. e ≡ Memory) }
{
    match named.0 {
        Target::Key(_) => Ok(()),
        Target::Keysym(keysym) => {
            let modifier = only_among(records, named.0);
            entries.push(KeysymEntry { keysym, modifier })?;
            Ok(())
        }
    }
}

/// The keysyms among the targets of records, in order.
fn keysym_entries(
    alloc: Global,
    records: &Ordered<Target, Plain<Assigned>>,
) -> Result<Vec<KeysymEntry>, Fault>
    ensures entries { IfOk result (λ entries. map shown_entry entries.items
        ≡ flat_map (keysym_recorded records.now) (keys records.now)) }
    ensures err { IfErr result (λ e. e ≡ Memory) }
{
    let mut entries = Vec::new(alloc);
    'targets: for target in records.as_slice() {
        add_keysym(records, target, &mut entries)?;
    }
    Ok(entries)
}

/// The modifiers that the modifier maps of a keymap's symbols give keys and keysyms, and what is passed over in them, which
/// counts for each place where a map is included.
///
/// # Errors
/// The faults of these statements, at their places: `UnknownModifier` at a word that is no modifier; `BadValue` at a virtual
/// modifier, at `all`, and at the number of no keysym; `TooMany` at a statement with a key's name of over 255 bytes;
/// `Memory`.
pub fn modifier_maps(
    alloc: Global,
    expansion: &Expansion,
    codes: &Codes,
    names: &NameTable,
    modifiers: &ModNames,
) -> Result<(ModifierMaps, Notes), Fault>
    ensures maps { IfOk result (λ found.
        AreModifierMaps found.0 codes.now names.now modifiers.now.names
        (expanded_body expansion.now)) }
    ensures faults { ReportsOrRunsOut result
        (map_faults_of codes.now names.now modifiers.now.names (expanded_body expansion.now)) }
{
    let context = Context {
        codes,
        keysyms: names,
        modifiers,
    };
    let merged = merge::<Context, Plain<Assigned>>(alloc, &context, expansion)?;
    let keysyms = keysym_entries(alloc, &merged.records)?;
    let maps = ModifierMaps {
        records: merged.records,
        keysyms,
    };
    Ok((maps, merged.notes))
}
