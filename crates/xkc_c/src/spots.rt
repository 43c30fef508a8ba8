//! Where a keymap gives a keysym.
ghost use Rattle.std.specs.Prelude.{◌≡◌, ◌⊎◌, List, None, Some};
ghost use Rattle.kx_text.specs.declared.finding.Spot.{Spot as SpotValue};
ghost use Rattle.kx_tables.specs.Content.{Content};
ghost use Rattle.kx_calls.specs.SpotsInC.{AreSpots, TellsSpots};
ghost use Rattle.kx_calls.specs.declared.status.TheConstants.{EMPTY, MEMORY};

use kx_calls::spots::{XkcSpot, spots_in};
use kx_calls::status::{EMPTY, MEMORY};
use kx_handles::KeymapHandle;
use kx_text::spots;
use std::alloc::Global;

/// Tells where a keysym is given, alone or with others, where there is room for all, and how many these are.
#[unsafe(no_mangle)]
pub extern "C" fn xkc_keymap_spots(
    alloc: Global,
    keymap: &mut KeymapHandle,
    keysym: u32,
    out: &mut [XkcSpot],
    count: &mut usize,
) -> u32
    ensures keymap { keymap.new.value ≡ keymap.old.value }
    ensures empty { keymap.old.value ≡ None
        → (result ≡ EMPTY) × ((out.new ≡ out.old) × (count.new ≡ count.old)) }
    ensures memory { result ≡ MEMORY → (out.new ≡ out.old) × (count.new ≡ count.old) }
    ensures spots { (content : Content) → keymap.old.value ≡ Some content
        → (result ≡ MEMORY) ⊎ ((found : List SpotValue) × (AreSpots content keysym found
        × TellsSpots found out.old out.new count.new result)) }
{
    let Some(tables) = keymap.take(alloc) else {
        return EMPTY;
    };
    let status = spots_in(alloc, &tables, keysym, out, count);
    keymap.put(tables);
    status
}
