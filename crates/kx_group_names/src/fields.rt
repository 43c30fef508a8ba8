//! The fields that name groups.
ghost use Rattle.std.specs.Prelude.{◌≡◌, ◌≤◌, [], IfOk, Some, length};
ghost use Rattle.std.specs.Option.{option_map};
ghost use Rattle.kx_basics.specs.declared.limits.TheConstants.{MOST_NAME_BYTES};
ghost use Rattle.kx_group_names.specs.Fields.{expression_faults, field_faults, index_faults, indexed_group, name_in, set_text, text_faults};
ghost use Rattle.kx_merge.specs.Faults.{value_faults};
ghost use Rattle.kx_merge.specs.Words.{lone_text, term_text};
ghost use Rattle.kx_merge.specs.Reports.{Reports};

use kx_basics::MOST_NAME_BYTES;
use kx_key_fields::is_group_name;
use kx_lex::{At, Boxed, Fault, Name, Span};
use kx_merge::{Counted, bad_value, expression_of, unknown_field};
use kx_parse::{Expression, Field, Index, Statement, Term};

/// The field of a statement, where it names a group.
pub(crate) fn name_in(statement: &Statement) -> Option<&Field>
    ensures { option_map (λ f. f.now) result ≡ name_in statement.now }
{
    match statement {
        Statement::Field(field) => {
            let field = field.get();
            if is_group_name(&field.place) {
                Some(field)
            } else {
                None
            }
        }
        _ => None,
    }
}

/// The group, counted from 1, that an index after a word names.
fn read_group(file: u32, word: &Name, index: &Option<Boxed<Index>>) -> Result<u8, Fault>
    ensures value { IfOk result (λ group. Some group ≡ indexed_group index.now) }
    ensures faults { Reports result (index_faults file word.now index.now) }
{
    match index {
        None => Err(unknown_field(file, word)),
        Some(index) => Counted::Group.read(file, &index.get().value),
    }
}

fn term_text(term: &Term) -> Option<&[u8]>
    ensures { option_map (λ t. t.now) result ≡ term_text term.now }
{
    match term {
        Term::Text(text) => Some(text.bytes.as_slice()),
        Term::Number(_) => None,
        Term::Signed(_) => None,
        Term::Word(_) => None,
        Term::KeyName(_) => None,
    }
}

/// The text that an expression is, where it is one.
fn text_of(expression: &Expression) -> Option<&[u8]>
    ensures { option_map (λ t. t.now) result ≡ lone_text expression.now }
{
    match expression.rest.as_slice() {
        [] => term_text(&expression.first),
        _ => None,
    }
}

/// The text that an expression of a statement is.
fn expression_text<'a>(
    file: u32,
    whole: Span,
    expression: &'a Expression,
) -> Result<&'a [u8], Fault>
    ensures value { IfOk result (λ text. Some text.now ≡ lone_text expression.now) }
    ensures short { IfOk result (λ text. length text.now ≤ MOST_NAME_BYTES) }
    ensures faults { Reports result
        (text_faults file whole expression.now.span (lone_text expression.now)) }
{
    match text_of(expression) {
        None => Err(bad_value(file, expression.span)),
        Some(text) => {
            if text.len() > MOST_NAME_BYTES {
                return Err(Fault::TooMany(At { file, span: whole }));
            }
            Ok(text)
        }
    }
}

/// The text that a field of a statement sets.
fn read_text<'a>(file: u32, whole: Span, field: &'a Field) -> Result<&'a [u8], Fault>
    ensures value { IfOk result (λ text. Some text.now ≡ set_text field.now.setting) }
    ensures short { IfOk result (λ text. length text.now ≤ MOST_NAME_BYTES) }
    ensures faults { Reports result
        (value_faults file (expression_faults file whole) field.now.span field.now.setting) }
{
    let expression = expression_of(file, field.span, &field.setting)?;
    expression_text(file, whole, expression)
}

/// The group, counted from 1, that a field of a statement names, and its name.
pub(crate) fn read_name<'a>(
    file: u32,
    whole: Span,
    field: &'a Field,
) -> Result<(u8, &'a [u8]), Fault>
    ensures group { IfOk result (λ name. Some name.0 ≡ indexed_group field.now.place.index) }
    ensures text { IfOk result (λ name. Some name.1.now ≡ set_text field.now.setting) }
    ensures short { IfOk result (λ name. length name.1.now ≤ MOST_NAME_BYTES) }
    ensures faults { Reports result (field_faults file whole field.now) }
{
    let group = read_group(file, &field.place.word, &field.place.index)?;
    let text = read_text(file, whole, field)?;
    Ok((group, text))
}
