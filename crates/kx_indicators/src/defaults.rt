//! Defaults for indicators among statements.
ghost use Rattle.std.specs.Prelude.{◌≡◌};
ghost use Rattle.std.specs.Option.{option_map};
ghost use Rattle.kx_indicators.specs.Blocks.{default_in, given_of, is_indicator, member_of};

use kx_lex::Name;
use kx_parse::{Field, Statement};

fn is_indicator(word: &[u8]) -> bool
    ensures { result ≡ is_indicator word.now }
{
    word.eq_ignore_ascii_case(b"indicator")
}

/// The word after the point of a default for indicators.
fn member_of(field: &Field) -> Option<&Name>
    ensures { option_map (λ n. n.now) result ≡ member_of field.now }
{
    if !is_indicator(field.place.word.bytes.as_slice()) {
        return None;
    }
    match &field.place.member {
        Some(member) => Some(member.get()),
        None => None,
    }
}

fn with_member(field: &Field) -> Option<(&Name, &Field)>
    ensures { option_map (λ d. (d.0.now, d.1.now)) result
        ≡ given_of field.now (member_of field.now) }
{
    match member_of(field) {
        Some(member) => Some((member, field)),
        None => None,
    }
}

/// A default for indicators, and the word of its field.
pub(crate) fn default_in(statement: &Statement) -> Option<(&Name, &Field)>
    ensures { option_map (λ d. (d.0.now, d.1.now)) result ≡ default_in statement.now }
{
    match statement {
        Statement::Field(field) => with_member(field.get()),
        _ => None,
    }
}
