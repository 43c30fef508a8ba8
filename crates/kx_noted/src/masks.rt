//! The modifiers of a type, and the masks of its entries, by their words.
use kx_parse::{Expression, Field, Setting, Sign, Term, Value};

/// So many modifiers of a type are looked at.
const MOST_WORDS: usize = 16;

/// The word of a term; none of another term, and of words for several modifiers or none.
fn word_in(term: &Term) -> Option<&[u8]> {
    match term {
        Term::Word(word) => {
            let word = word.bytes.as_slice();
            let is_one = !word.eq_ignore_ascii_case(b"all") && !word.eq_ignore_ascii_case(b"none");
            if is_one { Some(word) } else { None }
        }
        _ => None,
    }
}

fn is_none(expression: &Expression) -> bool {
    match (&expression.first, expression.rest.as_slice()) {
        (Term::Word(word), []) => word.bytes.as_slice().eq_ignore_ascii_case(b"none"),
        _ => false,
    }
}

/// The modifiers of a type in the order in which they are written.
#[derive(Clone, Copy)]
pub(crate) struct TypeWords<'t> {
    words: [&'t [u8]; MOST_WORDS],
    count: usize,
}

/// What a mask of an entry is to its type.
#[derive(Clone, Copy)]
pub(crate) enum EntryMask<'t> {
    /// Bits for the places of its modifiers among those of the type.
    Of(u32),
    /// The same, and a modifier that the type doesn't have.
    Beyond(u32, &'t [u8]),
    /// Its words don't tell.
    Unknown,
}

impl<'t> TypeWords<'t> {
    /// No modifiers.
    pub(crate) fn none() -> TypeWords<'t> {
        TypeWords {
            words: [&[]; MOST_WORDS],
            count: 0,
        }
    }

    /// The words in their order.
    pub(crate) fn as_slice<'s>(&'s self) -> &'s [&'t [u8]]
    where
        't: 's,
    {
        let count = self.count.min(self.words.len());
        &self.words[..count]
    }

    /// Adds a term; answers whether it could.
    fn add(&mut self, term: &'t Term) -> bool {
        let count = self.count;
        match (word_in(term), self.words.get_mut(count)) {
            (Some(word), Some(place)) => {
                *place = word;
                self.count = count.saturating_add(1);
                true
            }
            _ => false,
        }
    }

    /// The modifiers that an expression names; nothing, where its words don't tell.
    pub(crate) fn of(expression: &'t Expression) -> Option<TypeWords<'t>> {
        let mut words = TypeWords::none();
        if is_none(expression) {
            return Some(words);
        }
        let is_added = words.add(&expression.first)
            && expression
                .rest
                .as_slice()
                .iter()
                .all(|more| more.sign == Sign::Plus && words.add(&more.term));
        if is_added { Some(words) } else { None }
    }

    fn place_of(&self, word: &[u8]) -> Option<usize> {
        self.as_slice()
            .iter()
            .position(|known| known.eq_ignore_ascii_case(word))
    }

    /// The mask of an entry.
    pub(crate) fn mask_of(&self, expression: &'t Expression) -> EntryMask<'t> {
        let Some(wanted) = TypeWords::of(expression) else {
            return EntryMask::Unknown;
        };
        let mut bits: u32 = 0;
        let mut beyond = None;
        for word in wanted.as_slice() {
            match self.place_of(word) {
                Some(place) => bits |= bit_of(place),
                None => beyond = Some(*word),
            }
        }
        match beyond {
            Some(word) => EntryMask::Beyond(bits, word),
            None => EntryMask::Of(bits),
        }
    }
}

/// The bit of the word at a place in a type's modifiers.
pub(crate) fn bit_of(place: usize) -> u32 {
    match u32::try_from(place) {
        Ok(place) => 1u32.checked_shl(place).unwrap_or(0),
        Err(_) => 0,
    }
}

/// The expression in the brackets of a field.
pub(crate) fn index_of(field: &Field) -> Option<&Expression> {
    match &field.place.index {
        Some(index) => Some(&index.get().value),
        None => None,
    }
}

/// The expression that a field is set to.
pub(crate) fn value_of(field: &Field) -> Option<&Expression> {
    match &field.setting {
        Setting::To(Value::Expression(expression)) => Some(expression),
        _ => None,
    }
}

/// Whether a field has a word.
pub(crate) fn is_of(field: &Field, word: &[u8]) -> bool {
    field.place.word.bytes.as_slice().eq_ignore_ascii_case(word)
}
