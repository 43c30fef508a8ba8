//! Where a keymap gives a keysym.
ghost use Rattle.std.specs.Prelude.{◌≡◌, ◌⊎◌, ◌≤◌, ◌++◌, List, drop, length, map};
ghost use Rattle.kx_text.specs.declared.finding.Spot.{Spot as SpotValue};
ghost use Rattle.kx_calls.specs.SpotsInC.{AreSpots, TellsSpots, spot_in_c};
ghost use Rattle.kx_calls.specs.declared.status.TheConstants.{MEMORY};

use crate::status::{MEMORY, OK, ROOM};
use kx_handles::SharedTables;
use kx_text::{Spot, spots};
use std::alloc::Global;

/// Where a keysym is given: the index of a key, and a group and a level.
#[repr(C)]
#[derive(Clone, Copy)]
pub struct XkcSpot {
    pub key: u32,
    pub group: u32,
    pub level: u32,
}

impl XkcSpot {
    fn of(spot: Spot) -> XkcSpot
        ensures { result ≡ spot_in_c spot }
    {
        XkcSpot {
            key: spot.key.into(),
            group: spot.group.into(),
            level: spot.level.into(),
        }
    }
}

/// Tells where tables give a keysym, where there is room for all, and how many these are.
pub fn spots_in(
    alloc: Global,
    tables: &SharedTables,
    keysym: u32,
    out: &mut [XkcSpot],
    count: &mut usize,
) -> u32
    ensures memory { result ≡ MEMORY → (out.new ≡ out.old) × (count.new ≡ count.old) }
    ensures spots { (result ≡ MEMORY) ⊎ ((found : List SpotValue)
        × (AreSpots tables.now keysym found
        × TellsSpots found out.old out.new count.new result)) }
{
    match spots(alloc, tables, &[keysym]) {
        Err(_) => MEMORY,
        Ok(found) => tell(found.as_slice(), out, count),
    }
}

fn tell(found: &[Spot], out: &mut [XkcSpot], count: &mut usize) -> u32
    ensures { TellsSpots found.now out.old out.new count.new result }
{
    *count = found.len();
    if found.len() <= out.len() {
        fill(found, out);
        OK
    } else {
        ROOM
    }
}

/// Puts spots in front of what is there.
fn fill(found: &[Spot], out: &mut [XkcSpot])
    requires room { length found.now ≤ length out.old }
    ensures { out.new ≡ map spot_in_c found.now ++ drop (length found.now) out.old }
{
    for index in 0..found.len() {
        out[index] = XkcSpot::of(found[index]);
    }
}
