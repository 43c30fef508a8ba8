//! What the statements of a key give it.
ghost use Rattle.std.specs.Prelude.{◌≡◌, ◌≤◌, [], ℕ, All, length, unwrap_or};
ghost use Rattle.std.specs.Option.{option_map};
ghost use Rattle.kx_basics.specs.Keysyms.{IsKeysym};
ghost use Rattle.kx_basics.specs.declared.limits.TheConstants.{MOST_KEYSYMS};
ghost use Rattle.kx_tables.specs.Sound.{RangeHolds};
ghost use Rattle.kx_keys.specs.Given.{given};

use kx_actions::KeyAction;
use kx_symbols::KeyRecord;
use kx_tables::Range;
use kx_virtual_mods::NameSet;

/// The keysyms of a group and a level, both counted from 0; none where none are given.
#[tactic(auto, using(crate::proofs::Back::keysyms_back))]
pub fn keysyms_at(key: &KeyRecord, group: usize, level: usize) -> &[u32]
    ensures value { result.now ≡ unwrap_or ((given key.now).keysyms group level) [] }
    ensures few { length result.now ≤ MOST_KEYSYMS }
    ensures each { All IsKeysym result.now }
{
    match key.keysyms(group, level) {
        Some(keysyms) => keysyms.as_slice(),
        None => &[],
    }
}

/// The action of a group and a level, both counted from 0.
#[tactic(auto, using(crate::proofs::Back::action_back))]
pub fn action_at(key: &KeyRecord, group: usize, level: usize) -> Option<KeyAction>
    ensures { result ≡ (given key.now).action group level }
{
    key.action(group, level)
}

/// The name of the type that is written for a group.
#[tactic(auto, using(crate::proofs::Back::name_back))]
pub fn written_type(key: &KeyRecord, group: usize) -> Option<&[u8]>
    ensures { option_map (λ n. n.now) result ≡ (given key.now).group_type group }
{
    key.settings().group_type(group)
}

/// The name of the type that is written for the key.
#[tactic(auto, using(crate::proofs::Back::name_back))]
pub fn key_type(key: &KeyRecord) -> Option<&[u8]>
    ensures { option_map (λ n. n.now) result ≡ (given key.now).key_type }
{
    key.settings().key_type()
}

/// The virtual modifiers that are written for a key.
#[tactic(auto, using(crate::proofs::Back::set_back))]
pub fn virtual_mods(key: &KeyRecord) -> Option<NameSet>
    ensures { result ≡ (given key.now).virtual_mods }
{
    key.settings().virtual_mods()
}

/// What becomes of a group that a key doesn't have.
#[tactic(auto, using(crate::proofs::Back::range_back))]
pub fn range(key: &KeyRecord) -> Range
    ensures value { result ≡ (given key.now).range }
    ensures holds { RangeHolds result }
{
    match key.settings().range() {
        Some(range) => range,
        None => Range::Wrap,
    }
}
