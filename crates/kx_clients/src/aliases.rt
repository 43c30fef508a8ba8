//! The aliases by which keys are known.
ghost use Rattle.std.specs.Prelude.{◌≡◌, ◌++◌, IfOk, OnOk};
ghost use Rattle.std.specs.List.{flat_map};
ghost use Rattle.std.specs.Option.{option_map};
ghost use Rattle.kx_include.specs.Shared.{expanded_body};
ghost use Rattle.kx_merge.specs.Reports.{ReportsOrRunsOut};
ghost use Rattle.kx_clients.specs.Aliases.{alias_faults, known_alias, known_aliases, named_key, names_in};

use crate::alias::Alias;
use kx_codes::{AliasTarget, Codes};
use kx_include::Expansion;
use kx_lex::{Bytes, Fault};
use kx_merge::{Single, merge};
use kx_ordered::ShortName;
use std::alloc::{AllocError, Global};

/// The own name of a key that has this other name.
fn named_key<'a>(codes: &'a Codes, name: &[u8]) -> Option<&'a [u8]>
    ensures { option_map (λ key. key.now) result ≡ named_key codes.now name.now }
{
    let key = codes.name_of(codes.code_of(name)?)?;
    if name == key { None } else { Some(key) }
}

/// An alias of a key.
fn alias_of(alloc: Global, name: &[u8], key: &[u8]) -> Result<Alias, AllocError>
    ensures { IfOk result (λ alias. alias ≡ record { name = name.now; key = key.now }) }
{
    Ok(Alias {
        name: Bytes::of(alloc, name)?,
        key: Bytes::of(alloc, key)?,
    })
}

/// Adds a name, where it is an alias of a key.
fn add_known(
    alloc: Global,
    codes: &Codes,
    name: &[u8],
    aliases: &mut Vec<Alias>,
) -> Result<(), AllocError>
    ensures { OnOk result (aliases.new.items
        ≡ aliases.old.items ++ known_alias codes.now name.now) }
{
    if let Some(key) = named_key(codes, name) {
        aliases.push(alias_of(alloc, name, key)?)?;
    }
    Ok(())
}

/// The names of records that are aliases of keys.
fn known_of(
    alloc: Global,
    codes: &Codes,
    records: &[(ShortName, Single<AliasTarget>)],
) -> Result<Vec<Alias>, AllocError>
    ensures { IfOk result (λ aliases. aliases.items
        ≡ flat_map (known_alias codes.now) (names_in records.now)) }
{
    let mut aliases = Vec::new(alloc);
    'records: for record in records {
        add_known(alloc, codes, record.0.as_slice(), &mut aliases)?;
    }
    Ok(aliases)
}

/// The aliases of the keys that have these codes, in the order in which an expanded body first names them.
///
/// # Errors
/// `TooMany` at a statement of an alias with a name of over 255 bytes; `Memory`.
pub(crate) fn known_aliases(
    alloc: Global,
    expansion: &Expansion,
    codes: &Codes,
) -> Result<Vec<Alias>, Fault>
    ensures aliases { IfOk result (λ aliases. aliases.items
        ≡ known_aliases codes.now (expanded_body expansion.now)) }
    ensures faults { ReportsOrRunsOut result (alias_faults (expanded_body expansion.now)) }
{
    let merged = merge::<(), Single<AliasTarget>>(alloc, &(), expansion)?;
    Ok(known_of(alloc, codes, merged.records.as_slice())?)
}
