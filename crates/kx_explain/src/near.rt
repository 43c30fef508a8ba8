//! Words that are nearly the same.
ghost use Rattle.std.specs.Prelude.{◌≡◌, Some, true};
ghost use Rattle.std.specs.Str.{str_eq_ignore_ascii_case};

/// What stands after the bytes that two words have in common, in capital letters or small.
fn behind_common<'a>(word: &'a [u8], other: &'a [u8]) -> (&'a [u8], &'a [u8]) {
    let pairs = word.iter().zip(other.iter());
    let count = pairs
        .take_while(|(left, right)| left.eq_ignore_ascii_case(right))
        .count();
    (
        word.get(count..).unwrap_or(&[]),
        other.get(count..).unwrap_or(&[]),
    )
}

/// Whether one letter put in, left out or changed makes a word of another.
fn is_one_apart(word: &[u8], other: &[u8]) -> bool {
    let (word, other) = behind_common(word, other);
    match (word.split_first(), other.split_first()) {
        (None, _) => other.len() <= 1,
        (_, None) => word.len() <= 1,
        (Some((_, word_rest)), Some((_, other_rest))) => {
            word_rest.eq_ignore_ascii_case(other)
                || word.eq_ignore_ascii_case(other_rest)
                || word_rest.eq_ignore_ascii_case(other_rest)
        }
    }
}

/// Whether two letters put in, left out or changed make a word of another.
fn is_two_apart(word: &[u8], other: &[u8]) -> bool {
    let (word, other) = behind_common(word, other);
    match (word.split_first(), other.split_first()) {
        (None, _) => other.len() <= 2,
        (_, None) => word.len() <= 2,
        (Some((_, word_rest)), Some((_, other_rest))) => {
            is_one_apart(word_rest, other)
                || is_one_apart(word, other_rest)
                || is_one_apart(word_rest, other_rest)
        }
    }
}

/// How many letters two words are apart, up to two: 0 where only capital letters tell them apart. Of short words fewer
/// letters may differ, so that one isn't taken for any other.
pub(crate) fn letters_apart(word: &[u8], other: &[u8]) -> Option<u8>
    ensures { str_eq_ignore_ascii_case word.now other.now ≡ true → result ≡ Some 0 }
{
    if word.eq_ignore_ascii_case(other) {
        Some(0)
    } else if word.len() > 2 && is_one_apart(word, other) {
        Some(1)
    } else if word.len() > 4 && is_two_apart(word, other) {
        Some(2)
    } else {
        None
    }
}

/// The nearest of the names that are offered to a word, if one is near: the first of those that are equally near.
#[derive(Clone, Copy)]
pub struct Nearest<'a> {
    word: &'a [u8],
    found: Option<(u8, &'a [u8])>,
}

impl<'a> Nearest<'a> {
    /// None yet.
    pub fn to(word: &'a [u8]) -> Nearest<'a> {
        Nearest { word, found: None }
    }

    /// Offers a name.
    pub fn offer(&mut self, name: &'a [u8]) {
        if self.word.len().abs_diff(name.len()) > 2 {
            return;
        }
        let Some(apart) = letters_apart(self.word, name) else {
            return;
        };
        match self.found {
            Some((nearest, _)) if nearest <= apart => {}
            _ => self.found = Some((apart, name)),
        }
    }

    /// The nearest name.
    pub fn name(self) -> Option<&'a [u8]> {
        match self.found {
            Some((_, name)) => Some(name),
            None => None,
        }
    }
}
