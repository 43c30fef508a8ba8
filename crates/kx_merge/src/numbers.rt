//! Values that are one number.
ghost use Rattle.std.specs.Prelude.{◌≡◌};
ghost use Rattle.std.specs.Char.{is_ascii_digit};
ghost use Rattle.std.specs.List.{list_all};
ghost use Rattle.kx_parse.specs.IncludeText.{is_number};
ghost use Rattle.kx_merge.specs.Reports.{Reports};

use kx_basics::{MOST_GROUPS, MOST_LEVELS, decimal_value};
use kx_lex::{At, Fault};
use kx_parse::{Expression, Term};

fn are_digits(text: &[u8]) -> bool
    ensures { result ≡ list_all is_ascii_digit text.now }
{
    text.iter().all(|byte| byte.is_ascii_digit())
}

fn is_number(digits: &[u8]) -> bool
    ensures { result ≡ is_number digits.now }
{
    !digits.is_empty() && are_digits(digits)
}

/// What has a number from 1 on, after its word or without it.
#[derive(Clone, Copy, PartialEq, Eq)]
pub enum Counted {
    Group,
    Level,
}

impl Counted {
    ghost use Rattle.std.specs.Prelude.{◌≡◌, ◌≤◌, ◌^◌, [], IfOk, Some, min};
    ghost use Rattle.std.specs.Option.{option_map};
    ghost use Rattle.std.specs.Result.{result_ok};
    ghost use Rattle.std.specs.Str.{str_eq_ignore_ascii_case};
    ghost use Rattle.kx_merge.specs.Numbers.{counted_word, is_within, most_of, number_at, number_faults, number_named, range_fault, term_number, word_number};
    ghost use Rattle.kx_merge.specs.Reports.{Reports};

    /// The number after the word, in capital letters or small, or 2^32 where it is greater.
    pub fn in_word(self, word: &[u8]) -> Option<u64>
        ensures { result ≡ option_map (min (2 ^ 32)) (word_number self word.now) }
    {
        if word.len() < 5 {
            return None;
        }
        let (begin, digits) = word.split_at(5);
        if self.is_word(begin) && is_number(digits) {
            Some(decimal_value(digits))
        } else {
            None
        }
    }

    fn is_word(self, word: &[u8]) -> bool
        ensures { result ≡ str_eq_ignore_ascii_case word.now (counted_word self) }
    {
        match self {
            Counted::Group => word.eq_ignore_ascii_case(b"group"),
            Counted::Level => word.eq_ignore_ascii_case(b"level"),
        }
    }

    fn in_term(self, term: &Term) -> Option<u64>
        ensures { result ≡ option_map (min (2 ^ 32)) (term_number self term.now) }
    {
        match term {
            Term::Number(number) => Some(u64::from(number.value)),
            Term::Word(word) => self.in_word(word.bytes.as_slice()),
            Term::Signed(_) => None,
            Term::Text(_) => None,
            Term::KeyName(_) => None,
        }
    }

    /// The number that an expression is, or 2^32 where it is greater; `None` where it isn't one term that has a number.
    pub fn named(self, expression: &Expression) -> Option<u64>
        ensures { result ≡ option_map (min (2 ^ 32)) (number_named self expression.now) }
    {
        match expression.rest.as_slice() {
            [] => self.in_term(&expression.first),
            _ => None,
        }
    }

    /// The greatest number.
    fn most(self) -> u64
        ensures { result ≡ most_of self }
    {
        match self {
            Counted::Group => u64::from(MOST_GROUPS),
            Counted::Level => u64::from(MOST_LEVELS),
        }
    }

    /// Whether a number is one of a group, or of a level.
    pub fn has(self, number: u64) -> bool
        ensures { result ≡ is_within self number }
    {
        0 < number && number <= self.most()
    }

    fn out_of_range(self, at: At) -> Fault
        ensures { result ≡ range_fault self at }
    {
        match self {
            Counted::Group => Fault::GroupRange(at),
            Counted::Level => Fault::LevelRange(at),
        }
    }

    /// The number that an expression of a file is, from 1 to the greatest.
    ///
    /// # Errors
    /// At the expression, `BadValue` where it isn't one term that has a number, and `GroupRange` or `LevelRange` where there
    /// is none of its number.
    pub fn read(self, file: u32, expression: &Expression) -> Result<u8, Fault>
        ensures value { result_ok result ≡ number_at self expression.now }
        ensures named { IfOk result (λ n. number_named self expression.now ≡ Some n) }
        ensures within { IfOk result (λ n. (1 ≤ n) × (n ≤ most_of self)) }
        ensures faults { Reports result (number_faults file self expression.now) }
    {
        let at = At {
            file,
            span: expression.span,
        };
        match self.named(expression) {
            None => Err(Fault::BadValue(at)),
            Some(number) => {
                if !self.has(number) {
                    return Err(self.out_of_range(at));
                }
                Ok(number as u8)
            }
        }
    }
}
