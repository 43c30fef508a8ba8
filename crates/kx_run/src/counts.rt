//! How many held keys press each modifier.
ghost use Rattle.std.specs.Prelude.{◌≡◌, ℕ, ◌+◌, ◌^◌, ◌<◌, ◌≤◌, ◌==◌, slice_index, if◌then◌else◌};
ghost use Rattle.std.specs.Int.{bit_at};
ghost use Rattle.kx_mods.specs.Mods.{mask};

use kx_mods::Mods;

/// How many held keys set each modifier, by its bit.
pub type Counts = [u16; 8];

/// The counts with one more key, which sets these modifiers.
pub fn counted(old: Counts, mods: Mods) -> Counts
    requires { (i : ℕ) → i < 8 → slice_index old i < 65535 }
    ensures { (i : ℕ) → i < 8 → slice_index result i ≡ slice_index old i + bit_at (mask mods) i }
{
    if mods.is_none() {
        return old;
    }
    let bits = mods.mask();
    let mut counts = old;
    for i in 0..8 {
        counts[i] += u16::from((bits >> i) & 1);
    }
    counts
}

/// The counts without a key that they count, which set these modifiers.
pub fn uncounted(old: Counts, mods: Mods) -> Counts
    requires { (i : ℕ) → i < 8 → bit_at (mask mods) i ≤ slice_index old i }
    ensures { (i : ℕ) → i < 8 → slice_index result i + bit_at (mask mods) i ≡ slice_index old i }
{
    if mods.is_none() {
        return old;
    }
    let bits = mods.mask();
    let mut counts = old;
    for i in 0..8 {
        counts[i] -= u16::from((bits >> i) & 1);
    }
    counts
}

/// The modifiers that some key sets.
pub fn counted_mods(counts: &Counts) -> Mods
    ensures in_range { mask result < 2 ^ 8 }
    ensures some { (i : ℕ) → i < 8
        → bit_at (mask result) i ≡ (if slice_index counts.now i == 0 then 0 else 1) }
{
    let mut bits = 0u8;
    for i in 0..8 {
        if counts[i] > 0 {
            bits |= 1 << i;
        }
    }
    Mods::from_mask(bits)
}
