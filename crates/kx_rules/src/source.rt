//! The source of a keymap that is made of components.
ghost use Rattle.std.specs.Prelude.{◌≡◌, IfOk, IfErr, OnOk, true, false, ◌++◌, ◌⊎◌};
ghost use Rattle.std.specs.List.{list_all};
ghost use Rattle.kx_rules.specs.Sources.{are_writable, is_plain, section_line, source_of};
ghost use Rattle.kx_rules.specs.declared.source.SourceFault.TheVariants.{Memory, Unwritable};

use crate::components::Components;
use std::alloc::{AllocError, Global};

/// Why components have no source.
#[derive(Clone, Copy, PartialEq, Eq)]
pub enum SourceFault {
    /// A growth is refused.
    Memory,
    /// A component has a byte that doesn't stand for itself in a string of a source.
    Unwritable,
}

impl From<AllocError> for SourceFault {
    ghost use Rattle.std.specs.Prelude.{◌≡◌};
    ghost use Rattle.kx_rules.specs.declared.source.SourceFault.TheVariants.{Memory};

    ghost from_gives = { λ _ e. e ≡ Memory };

    fn from(_error: AllocError) -> SourceFault {
        SourceFault::Memory
    }
}

fn is_plain(byte: u8) -> bool
    ensures { result ≡ is_plain byte }
{
    32 <= byte && byte != 34 && byte != 92 && byte != 127
}

fn all_plain(text: &[u8]) -> bool
    ensures { result ≡ list_all is_plain text.now }
{
    text.iter().all(|byte| is_plain(*byte))
}

#[tactic(auto, unfolding(crate::specs::Sources::are_writable))]
fn are_writable(components: &Components) -> bool
    ensures { result ≡ are_writable components.now }
{
    all_plain(components.keycodes.as_slice())
        && all_plain(components.types.as_slice())
        && all_plain(components.compat.as_slice())
        && all_plain(components.symbols.as_slice())
}

fn push_section(out: &mut Vec<u8>, word: &[u8], text: &[u8]) -> Result<(), AllocError>
    ensures { OnOk result (out.new.items ≡ out.old.items ++ section_line word.now text.now) }
{
    out.extend_from_slice(word)?;
    out.extend_from_slice(b" { include \"")?;
    out.extend_from_slice(text)?;
    out.extend_from_slice(b"\" };\n")?;
    Ok(())
}

#[tactic(auto, unfolding(crate::specs::Sources::source_of))]
fn written(alloc: Global, components: &Components) -> Result<Vec<u8>, AllocError>
    ensures { IfOk result (λ source. source.items ≡ source_of components.now) }
{
    let mut out = Vec::new(alloc);
    out.extend_from_slice(b"xkb_keymap {\n")?;
    push_section(&mut out, b"xkb_keycodes", components.keycodes.as_slice())?;
    push_section(&mut out, b"xkb_types", components.types.as_slice())?;
    push_section(&mut out, b"xkb_compat", components.compat.as_slice())?;
    push_section(&mut out, b"xkb_symbols", components.symbols.as_slice())?;
    out.extend_from_slice(b"};\n")?;
    Ok(out)
}

/// The source of a keymap whose four sections include the components.
///
/// # Errors
/// `Unwritable`, where a component has a quote, a backslash or a control byte; `Memory`.
pub fn source_of(alloc: Global, components: &Components) -> Result<Vec<u8>, SourceFault>
    ensures value { IfOk result (λ source.
        (are_writable components.now ≡ true) × (source.items ≡ source_of components.now)) }
    ensures fault { IfErr result (λ e.
        (e ≡ Memory) ⊎ ((e ≡ Unwritable) × (are_writable components.now ≡ false))) }
{
    if !are_writable(components) {
        return Err(SourceFault::Unwritable);
    }
    Ok(written(alloc, components)?)
}
