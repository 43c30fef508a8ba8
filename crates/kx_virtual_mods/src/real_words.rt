//! The words for real modifiers.
ghost use Rattle.std.specs.Prelude.{◌≡◌};
ghost use Rattle.std.specs.Option.{option_map};
ghost use Rattle.std.specs.Str.{str_eq_ignore_ascii_case};
ghost use Rattle.kx_mods.specs.Mods.{mask};
ghost use Rattle.kx_virtual_mods.specs.Masks.{real_mask};

use kx_mods::Mods;

/// The real modifiers that a word stands for, in capital letters or small: one by its name, all by `all`, none by `none`.
pub fn real_mask(word: &[u8]) -> Option<Mods>
    ensures { option_map mask result ≡ real_mask word.now }
{
    if word.eq_ignore_ascii_case(b"none") {
        Some(Mods::NONE)
    } else if word.eq_ignore_ascii_case(b"all") {
        Some(Mods::from_mask(255))
    } else if word.eq_ignore_ascii_case(b"shift") {
        Some(Mods::SHIFT)
    } else if word.eq_ignore_ascii_case(b"lock") {
        Some(Mods::LOCK)
    } else if word.eq_ignore_ascii_case(b"control") {
        Some(Mods::CONTROL)
    } else if word.eq_ignore_ascii_case(b"mod1") {
        Some(Mods::MOD1)
    } else if word.eq_ignore_ascii_case(b"mod2") {
        Some(Mods::MOD2)
    } else if word.eq_ignore_ascii_case(b"mod3") {
        Some(Mods::MOD3)
    } else if word.eq_ignore_ascii_case(b"mod4") {
        Some(Mods::MOD4)
    } else if word.eq_ignore_ascii_case(b"mod5") {
        Some(Mods::MOD5)
    } else {
        None
    }
}
