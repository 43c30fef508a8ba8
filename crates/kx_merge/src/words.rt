//! Values that are one word.
ghost use Rattle.std.specs.Prelude.{◌≡◌};
ghost use Rattle.std.specs.Option.{option_map};
ghost use Rattle.kx_merge.specs.Words.{among, lone_word, truth_words};

use kx_lex::Name;
use kx_parse::{Expression, Term};

/// The word of an expression that is one word.
pub fn lone_word(expression: &Expression) -> Option<&Name>
    ensures { option_map (λ w. w.now) result ≡ lone_word expression.now }
{
    match expression.rest.as_slice() {
        [] => match &expression.first {
            Term::Word(word) => Some(word),
            _ => None,
        },
        _ => None,
    }
}

/// What a word, in capital letters or small, means as a truth value.
pub fn truth_named(word: &[u8]) -> Option<bool>
    ensures { result ≡ among truth_words word.now }
{
    if word.eq_ignore_ascii_case(b"true") {
        Some(true)
    } else if word.eq_ignore_ascii_case(b"yes") {
        Some(true)
    } else if word.eq_ignore_ascii_case(b"on") {
        Some(true)
    } else if word.eq_ignore_ascii_case(b"false") {
        Some(false)
    } else if word.eq_ignore_ascii_case(b"no") {
        Some(false)
    } else if word.eq_ignore_ascii_case(b"off") {
        Some(false)
    } else {
        None
    }
}
