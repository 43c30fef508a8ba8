//! The bytes of names.
ghost use Rattle.std.specs.Prelude.{◌≡◌, ◌≤◌, ◌+◌, ◌↔◌, IsTrue, OnOk, IfErr, length};
ghost use Rattle.kx_tables.specs.Broken.{Breaks};
ghost use Rattle.kx_tables.specs.Content.{type_names, key_names};
ghost use Rattle.kx_basics.specs.KeyNames.{IsKeyByte};
ghost use Rattle.kx_tables.specs.Sound.{EachRow, NameByteHolds};

use super::{Broken, RecordKind};
use crate::tables::Rows;
use kx_basics::is_key_byte;

/// Checks the bytes of the keys' names, which stand at `start..end` among all names.
pub fn check_key_bytes<R: Rows>(rows: &R, start: u32, end: u32) -> Result<(), Broken>
    requires start { start ≡ type_names (R.content rows.now) }
    requires end { end ≡ type_names (R.content rows.now) + key_names (R.content rows.now) }
    requires within { end ≤ length (R.content rows.now).names }
    ensures ok { OnOk result (EachRow (R.content rows.now).names
        (NameByteHolds (R.content rows.now))) }
    ensures broken { IfErr result (λ b. Breaks (R.content rows.now) b.part b.index) }
{
    let names = rows.names();
    for index in start..end {
        if !is_key_byte(names[index as usize]) {
            return Err(Broken {
                part: RecordKind::Name,
                index,
            });
        }
    }
    Ok(())
}
