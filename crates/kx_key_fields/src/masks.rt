//! Masks of virtual modifiers.
ghost use Rattle.std.specs.Prelude.{◌≡◌, Some, fold, is_some};
ghost use Rattle.std.specs.List.{flat_map};
ghost use Rattle.std.specs.Result.{result_ok};
ghost use Rattle.kx_virtual_mods.specs.Masks.{joined, real_mask};
ghost use Rattle.kx_key_fields.specs.VirtualMasks.{term_virtual, virtual_mask, virtual_mask_faults, virtual_operation_faults, virtual_term_faults, virtual_word_faults, with_term, word_virtual};
ghost use Rattle.kx_merge.specs.Reports.{Reports};

use kx_lex::{At, Fault, Name};
use kx_parse::{Expression, Operation, Sign, Term};
use kx_virtual_mods::{ModNames, NameSet, real_mask};

fn is_real(word: &[u8]) -> bool
    ensures { result ≡ is_some (real_mask word.now) }
{
    real_mask(word).is_some()
}

/// The set of a virtual modifier's name.
fn word_set(names: &ModNames, file: u32, word: &Name) -> Result<NameSet, Fault>
    ensures value { result_ok result ≡ word_virtual names.now.names word.now.bytes }
    ensures faults { Reports result (virtual_word_faults names.now.names file word.now) }
{
    let bytes = word.bytes.as_slice();
    let at = At {
        file,
        span: word.span,
    };
    if is_real(bytes) {
        return Err(Fault::BadValue(at));
    }
    match names.number_of(bytes) {
        Some(number) => Ok(NameSet::of_virtual(number)),
        None => Err(Fault::UnknownModifier(at)),
    }
}

fn term_set(names: &ModNames, file: u32, term: &Term) -> Result<NameSet, Fault>
    ensures value { result_ok result ≡ term_virtual names.now.names term.now }
    ensures faults { Reports result (virtual_term_faults names.now.names file term.now) }
{
    let span = match term {
        Term::Word(word) => return word_set(names, file, word),
        Term::Number(number) => number.span,
        Term::Signed(signed) => signed.span,
        Term::Text(text) => text.span,
        Term::KeyName(name) => name.span(),
    };
    Err(Fault::BadValue(At { file, span }))
}

fn joined(sign: Sign, set: NameSet, other: NameSet) -> NameSet
    ensures { result ≡ joined sign set other }
{
    match sign {
        Sign::Plus => set.with(other),
        Sign::Minus => set.minus(other),
    }
}

/// The modifiers that terms leave after others.
fn operations_set(
    names: &ModNames,
    file: u32,
    before: NameSet,
    operations: &[Operation],
) -> Result<NameSet, Fault>
    ensures value { result_ok result
        ≡ fold (with_term names.now.names) (Some before) operations.now }
    ensures faults { Reports result
        (flat_map (virtual_operation_faults names.now.names file) operations.now) }
{
    let mut set = before;
    'operations: for operation in operations {
        let other = term_set(names, file, &operation.term)?;
        set = joined(operation.sign, set, other);
    }
    Ok(set)
}

/// The virtual modifiers that a mask of these alone names.
pub(crate) fn virtual_mask(
    names: &ModNames,
    file: u32,
    expression: &Expression,
) -> Result<NameSet, Fault>
    ensures value { result_ok result ≡ virtual_mask names.now.names expression.now }
    ensures faults { Reports result (virtual_mask_faults names.now.names file expression.now) }
{
    let first = term_set(names, file, &expression.first)?;
    operations_set(names, file, first, expression.rest.as_slice())
}
