//! The first places of the keysyms that modifier maps name.
ghost use Rattle.std.specs.Prelude.{◌≡◌, ◌∷◌, [], ◌==◌, ℕ, None, Some, IfErr, IfOk, IfSome, nat_eq, map, if◌then◌else◌};
ghost use Rattle.std.specs.List.{list_any};
ghost use Rattle.std.specs.Set.{is_member};
ghost use Rattle.indexmap.specs.IndexMap.{get};
ghost use Rattle.kx_basics.specs.declared.limits.TheConstants.{CODES};
ghost use Rattle.kx_lex.specs.declared.fault.Fault.TheVariants.{Memory};
ghost use Rattle.kx_modmaps.specs.Maps.{Maps, shown_entry};
ghost use Rattle.kx_keys.specs.Typing.{typing_of};
ghost use Rattle.kx_keys.specs.Given.{given};
ghost use Rattle.kx_resolve.specs.Finding.{IsFirstOrNone, Visited};
ghost use Rattle.kx_keys.specs.Mapping.{first_place, level_places, places_below};
ghost use Rattle.kx_resolve.specs.NamedKeys.{mapping_in, places_of_key, places_on};

use crate::named_keys::NamedKeys;
use kx_keys::given::keysyms_at;
use kx_keys::group_types::{content_group, group_count, group_type};
use kx_keys::places::LevelPlace;
use kx_keys::typing::Typing;
use kx_lex::Fault;
use kx_modmaps::ModifierMaps;
use kx_ordered::Ordered;
use kx_symbols::KeyRecord;
use std::alloc::Global;

/// The first places of the keysyms that are looked for, by the keysyms' numbers; none where none is found.
pub(crate) type FirstPlaces = Ordered<u32, Option<LevelPlace>>;

/// Visits a place of a keysym, which counts where the keysym is looked for.
fn visit_keysym(firsts: &mut FirstPlaces, keysym: u32, place: LevelPlace)
    ensures { Visited (λ k. if nat_eq keysym k then place ∷ [] else []) firsts.old firsts.new }
{
    if let Some(first) = firsts.get_mut(&keysym) {
        *first = Some(place.earlier(*first));
    }
}

/// Visits the keysyms of a level, at its place.
fn visit_level(firsts: &mut FirstPlaces, keysyms: &[u32], place: LevelPlace)
    ensures { Visited (λ k. if is_member nat_eq keysyms.now k then place ∷ [] else []) firsts.old
        firsts.new }
{
    'keysyms: for keysym in keysyms {
        visit_keysym(firsts, *keysym, place);
    }
}

/// Visits a number of levels of a group of a key.
fn visit_group(firsts: &mut FirstPlaces, key: &KeyRecord, code: u16, group: usize, levels: usize)
    ensures { Visited (λ k. level_places k (given key.now) code group levels) firsts.old
        firsts.new }
{
    let content = content_group(key, group);
    'levels: for level in 0..levels {
        let place = LevelPlace { group, level, code };
        visit_level(firsts, keysyms_at(key, content, level), place);
    }
}

/// Visits the groups of a key, each with the levels of its type.
fn visit_key(firsts: &mut FirstPlaces, typing: Typing, key: &KeyRecord, code: u16)
    ensures { Visited (places_on (typing_of typing.entry) (given key.now) code) firsts.old
        firsts.new }
{
    'groups: for group in 0..group_count(key) {
        visit_group(
            firsts,
            key,
            code,
            group,
            group_type(typing, key, group).levels,
        );
    }
}

/// Visits the key of a code, where the code has a name.
fn visit_code(firsts: &mut FirstPlaces, keys: NamedKeys, code: u16)
    ensures { Visited (places_of_key keys.entry code) firsts.old firsts.new }
{
    match keys.key(code) {
        Some(key) => visit_key(firsts, keys.typing, key, code),
        None => {}
    }
}

/// Visits the keys of all codes.
fn visit_codes(firsts: &mut FirstPlaces, keys: NamedKeys)
    ensures { (maps : Maps) → Visited (λ k. places_below k (mapping_in keys.entry maps) CODES)
        firsts.old firsts.new }
{
    let count = firsts.len();
    if count == 0 {
        return;
    }
    'codes: for code in 0..keys.codes.end() {
        visit_code(firsts, keys, code);
    }
}

/// The keysyms of modifier maps, without places.
fn unplaced_keysyms(alloc: Global, maps: &ModifierMaps) -> Result<FirstPlaces, Fault>
    ensures named { IfOk result (λ firsts. (k : ℕ)
        → get nat_eq firsts k ≡ (if list_any (λ (e : ℕ × ℕ). e.0 == k)
        (map shown_entry maps.now.by_keysym) then Some None else None)) }
    ensures err { IfErr result (λ e. e ≡ Memory) }
{
    let mut firsts = Ordered::new(alloc);
    'entries: for entry in maps.keysyms() {
        firsts.insert(entry.keysym, None)?;
    }
    Ok(firsts)
}

/// The first places of the keysyms that modifier maps name.
pub(crate) fn first_places(
    alloc: Global,
    keys: NamedKeys,
    maps: &ModifierMaps,
) -> Result<FirstPlaces, Fault>
    ensures firsts { IfOk result (λ firsts. let m = mapping_in keys.entry maps.now in (k : ℕ)
        → get nat_eq firsts k ≡ (if list_any (λ (e : ℕ × ℕ). e.0 == k) m.keysym_maps
        then Some (first_place k m) else None)) }
    ensures least { IfOk result (λ firsts. (k : ℕ) → IfSome (get nat_eq firsts k)
        (IsFirstOrNone (places_below k (mapping_in keys.entry maps.now) CODES))) }
    ensures err { IfErr result (λ e. e ≡ Memory) }
{
    let mut firsts = unplaced_keysyms(alloc, maps)?;
    visit_codes(&mut firsts, keys);
    Ok(firsts)
}
