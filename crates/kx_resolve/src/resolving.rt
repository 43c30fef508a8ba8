//! From what is read of a keymap to its tables.
ghost use Rattle.std.specs.Prelude.{◌≡◌, IfErr, IfOk};
ghost use Rattle.kx_builder.specs.Agreement.{ShowsSame};
ghost use Rattle.kx_builder.specs.IndicatorMaps.{keymap_with, with_indicator_maps};
ghost use Rattle.kx_builder.specs.Placed.{content_of_resolved};
ghost use Rattle.kx_codes.specs.Codes.{name_of};
ghost use Rattle.kx_lex.specs.declared.fault.Fault.TheVariants.{Memory};
ghost use Rattle.kx_keys.specs.Bounds.{OneCode};
ghost use Rattle.kx_resolve.specs.Read.{lit_in, meant_in, resolved_in};
ghost use Rattle.kx_tables.specs.Keymap.{keymap_of};
ghost use Rattle.kx_tables.specs.RawTables.{content_of};
ghost use Rattle.kx_tables.specs.Sound.{Sound};

use crate::keys::push_keys;
use crate::lighting::with_indicator_maps;
use crate::read::Read;
use crate::types_in_use::types_used;
use crate::using::with_types;
use ks_core::Notes;
use kx_codes::Codes;
use kx_lex::Fault;
use kx_tables::RawTables;
use std::alloc::Global;

/// No effect: no two keycodes have the same name.
fn names_apart(codes: &Codes)
    ensures { OneCode (name_of codes.now) }
{
    let _agree = codes.name_of(0);
}

/// The tables of what is read of a keymap, and what was passed over: the keys that keycodes name, in the order of their
/// codes, with the types that their groups use, the indicators, and the names of groups.
///
/// # Errors
/// `Memory`.
pub fn resolve(alloc: Global, read: Read) -> Result<(RawTables, Notes), Fault>
    ensures content { IfOk result (λ made. content_of made.0
        ≡ with_indicator_maps (content_of_resolved (resolved_in read.entry)) (lit_in read.entry)
        read.entry.group_names.now) }
    ensures sound { IfOk result (λ made. Sound (content_of made.0)) }
    ensures agrees { IfOk result (λ made. ShowsSame (keymap_of (content_of made.0))
        (keymap_with (meant_in read.entry) (lit_in read.entry))) }
    ensures err { IfErr result (λ e. e ≡ Memory) }
{
    names_apart(read.keys.named.codes);
    let used = types_used(alloc, read.keys.named)?;
    let mut builder = with_types(alloc, read, &used.names)?;
    push_keys(&mut builder, read, &used)?;
    let made = with_indicator_maps(alloc, builder, read)?;
    Ok(made)
}
