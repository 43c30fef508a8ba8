//! The modifier maps of keys.
ghost use Rattle.std.specs.Prelude.{◌≡◌, ◌==◌, ◌&&◌, ◌||◌, ℕ, None, IfErr, IfOk, OnOk, nat_eq, map, unwrap_or};
ghost use Rattle.std.specs.List.{list_any};
ghost use Rattle.std.specs.Option.{option_map_or};
ghost use Rattle.indexmap.specs.IndexMap.{get};
ghost use Rattle.kx_lex.specs.declared.fault.Fault.TheVariants.{Memory};
ghost use Rattle.kx_virtual_mods.specs.Sets.{has};
ghost use Rattle.kx_modmaps.specs.Maps.{shown_entry};
ghost use Rattle.kx_mods.specs.Mods.{mask};
ghost use Rattle.kx_keys.specs.Mapping.{is_at};
ghost use Rattle.kx_resolve.specs.Modmaps.{is_mapped};

use crate::finding::{FirstPlaces, first_places};
use crate::named_keys::NamedKeys;
use indexmap::IndexMap;
use kx_lex::Fault;
use kx_modmaps::ModifierMaps;
use kx_mods::Mods;
use std::alloc::Global;
use std::marker::Model;

/// The real modifiers that keys are mapped to, by their codes: those that modifier maps give a key by its name, and those
/// that they give the keysyms of which it has the first place.
pub struct KeyModmaps {
    maps: ModifierMaps,
    /// What keys are mapped to by their keysyms, by code.
    by_keysym: IndexMap<u16, Mods>,
}

impl Drop for KeyModmaps {
    fn drop(self) {
        let KeyModmaps {
            maps: _,
            by_keysym: _,
        } = self;
    }
}

impl Model for KeyModmaps {
    ghost use Rattle.kx_resolve.specs.Modmaps.{Modmaps};

    ghost Value = { Modmaps };

    ghost view = { λ m. record { maps = m.maps; by_keysym = m.by_keysym.entries } };
}

impl KeyModmaps {
    ghost use Rattle.std.specs.Prelude.{◌≡◌, ℕ, IfErr, IfOk};
    ghost use Rattle.kx_lex.specs.declared.fault.Fault.TheVariants.{Memory};
    ghost use Rattle.kx_keys.specs.Mapping.{modmap_of};
    ghost use Rattle.kx_resolve.specs.Modmaps.{modmap_at};
    ghost use Rattle.kx_resolve.specs.NamedKeys.{mapping_in};

    /// The real modifiers that the key of a code is mapped to.
    #[inline(always)]
    pub fn key(&self, code: u16) -> Mods
        ensures { result ≡ modmap_at self.now code }
    {
        self.maps.key(code).with(mods_at(&self.by_keysym, code))
    }

    /// What keys are mapped to by modifier maps, where the keys are those of named codes, with the levels of their types.
    ///
    /// # Errors
    /// `Memory` where a growth is refused.
    pub fn of(alloc: Global, keys: NamedKeys, maps: ModifierMaps) -> Result<KeyModmaps, Fault>
        ensures mapped { IfOk result (λ made. (code : ℕ)
            → modmap_at made code ≡ modmap_of (mapping_in keys.entry maps) code) }
        ensures err { IfErr result (λ e. e ≡ Memory) }
    {
        let firsts = first_places(alloc, keys, &maps)?;
        let by_keysym = mods_by_code(alloc, &firsts, &maps)?;
        Ok(KeyModmaps { maps, by_keysym })
    }
}

/// The modifiers of a code, none where it has no entry.
fn mods_at(by_code: &IndexMap<u16, Mods>, code: u16) -> Mods
    ensures { mask result ≡ option_map_or mask (get nat_eq by_code.now code) 0 }
{
    match by_code.get(&code) {
        None => Mods::NONE,
        Some(mods) => *mods,
    }
}

/// Adds modifiers to those of a code.
fn add_mods(by_code: &mut IndexMap<u16, Mods>, code: u16, mods: Mods) -> Result<(), Fault>
    ensures added { OnOk result ((c real : ℕ) → is_mapped by_code.new c real
        ≡ (is_mapped by_code.old c real || code == c && has (mask mods) real)) }
    ensures err { IfErr result (λ e. e ≡ Memory) }
{
    let mods = mods_at(by_code, code).with(mods);
    by_code.insert(code, mods)?;
    Ok(())
}

/// Adds the modifier of a keysym to those of the code where the keysym has its first place.
fn add_entry(
    by_code: &mut IndexMap<u16, Mods>,
    firsts: &FirstPlaces,
    keysym: u32,
    modifier: Mods,
) -> Result<(), Fault>
    ensures added { OnOk result ((c real : ℕ) → is_mapped by_code.new c real
        ≡ (is_mapped by_code.old c real
        || is_at c (unwrap_or (get nat_eq firsts.now keysym) None) && has (mask modifier) real)) }
    ensures err { IfErr result (λ e. e ≡ Memory) }
{
    match firsts.get(&keysym) {
        Some(Some(place)) => add_mods(by_code, place.code, modifier),
        Some(None) | None => Ok(()),
    }
}

/// The modifiers of keysyms by the codes where these have their first places.
fn mods_by_code(
    alloc: Global,
    firsts: &FirstPlaces,
    maps: &ModifierMaps,
) -> Result<IndexMap<u16, Mods>, Fault>
    ensures mods { IfOk result (λ by_code. (c real : ℕ) → is_mapped by_code c real
        ≡ list_any (λ (e : ℕ × ℕ). is_at c (unwrap_or (get nat_eq firsts.now e.0) None)
        && has e.1 real) (map shown_entry maps.now.by_keysym)) }
    ensures err { IfErr result (λ e. e ≡ Memory) }
{
    let mut by_code = IndexMap::new(alloc);
    'entries: for entry in maps.keysyms() {
        add_entry(&mut by_code, firsts, entry.keysym, entry.modifier)?;
    }
    Ok(by_code)
}
