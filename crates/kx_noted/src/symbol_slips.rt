//! Likely slips in symbols and compat.
use crate::keysyms::has_name;
use crate::kind::WarningKind;
use crate::masks::{index_of, is_of, value_of};
use crate::statements::Reader;
use ks_core::Notes;
use kx_explain::quoted;
use kx_key_lists::read_group;
use kx_lex::{At, Number};
use kx_parse::{Entry, Expression, Field, KeyField, Setting, Symbol, Term};
use kx_symbols::symbol_keysym;
use std::alloc::AllocError;

/// The words of fields that take a truth value, and aren't used.
static TRUTH_WORDS: [&[u8]; 6] = [
    b"repeat",
    b"repeats",
    b"repeating",
    b"lock",
    b"locks",
    b"locking",
];

/// The values that they take.
static TRUTHS: [&[u8]; 7] = [b"yes", b"no", b"true", b"false", b"on", b"off", b"default"];

fn is_among(word: &[u8], words: &[&[u8]]) -> bool {
    words.iter().any(|known| known.eq_ignore_ascii_case(word))
}

fn is_truth(expression: &Expression) -> bool {
    match (&expression.first, expression.rest.as_slice()) {
        (Term::Word(word), []) => is_among(word.bytes.as_slice(), TRUTHS.as_slice()),
        _ => false,
    }
}

/// Whether a field wants a truth value and has another.
fn lacks_truth(field: &Field) -> bool {
    let word = match &field.place.member {
        Some(member) => member.get().bytes.as_slice(),
        None => field.place.word.bytes.as_slice(),
    };
    if !is_among(word, TRUTH_WORDS.as_slice()) {
        return false;
    }
    match &field.setting {
        Setting::On | Setting::Off => false,
        Setting::To(_) => match value_of(field) {
            Some(expression) => !is_truth(expression),
            None => true,
        },
    }
}

impl Reader<'_, '_, '_> {
    /// Notes a field that says nothing, since its value is no truth value.
    pub(crate) fn note_truth(&mut self, file: u32, field: &Field) -> Result<(), AllocError> {
        if !lacks_truth(field) {
            return Ok(());
        }
        let span = field.span;
        let word = quoted(field.place.word.bytes.as_slice());
        let message = format_args!("the value of {word} is none of yes, no and default");
        self.warnings
            .add(WarningKind::Idle, At { file, span }, message)
    }

    /// Notes fields that say nothing, since their values are no truth values.
    pub(crate) fn note_truths(&mut self, file: u32, fields: &[Field]) -> Result<(), AllocError> {
        for field in fields {
            self.note_truth(file, field)?;
        }
        Ok(())
    }

    /// The same of the fields of a key.
    pub(crate) fn note_key_truths(
        &mut self,
        file: u32,
        fields: &[KeyField],
    ) -> Result<(), AllocError> {
        for field in fields {
            if let KeyField::Field(field) = field {
                self.note_truth(file, field.get())?;
            }
        }
        Ok(())
    }

    /// Notes a keysym of a statement that no key gives, and what that leads to.
    fn note_ungiven(
        &mut self,
        file: u32,
        symbol: &Symbol,
        outcome: &'static str,
    ) -> Result<(), AllocError> {
        let mut notes = Notes::new();
        let read = self.read;
        let Ok(Some(keysym)) = symbol_keysym(read.names, file, symbol, &mut notes) else {
            return Ok(());
        };
        let Symbol::Word(word) = symbol else {
            return Ok(());
        };
        if self.slips.is_given(read, keysym)? {
            return Ok(());
        }
        let span = word.span;
        let word = quoted(word.bytes.as_slice());
        let message = format_args!("no key gives {word}, so that {outcome}");
        self.warnings
            .add(WarningKind::Idle, At { file, span }, message)
    }

    /// Notes entries of a modifier map for keysyms that no key gives.
    pub(crate) fn note_map_entries(
        &mut self,
        file: u32,
        entries: &[Entry],
    ) -> Result<(), AllocError> {
        for entry in entries {
            if let Entry::Symbol(symbol) = entry {
                self.note_ungiven(file, symbol, "no key is mapped by it")?;
            }
        }
        Ok(())
    }

    /// Notes an interpretation for a keysym that no key gives.
    pub(crate) fn note_interpreted(
        &mut self,
        file: u32,
        symbol: &Symbol,
    ) -> Result<(), AllocError> {
        self.note_ungiven(file, symbol, "no key takes this interpretation")
    }

    /// Notes a name of a group that no key has.
    fn note_nameless(&mut self, at: At, group: usize) -> Result<(), AllocError> {
        let read = self.read;
        let most = self.slips.most_groups(read);
        if most == 0 || group < most {
            return Ok(());
        }
        let number = group.saturating_add(1);
        let message = format_args!("no key has a group {number} that this could name");
        self.warnings.add(WarningKind::Idle, at, message)
    }

    /// Notes a name of a group that is written again in its map, or that no key has.
    pub(crate) fn note_group_name(
        &mut self,
        file: u32,
        field: &Field,
        is_meant: bool,
    ) -> Result<(), AllocError> {
        let (true, Some(index)) = (is_of(field, b"name"), index_of(field)) else {
            return Ok(());
        };
        let Ok(group) = read_group(file, index) else {
            return Ok(());
        };
        let span = field.span;
        let at = At { file, span };
        let group = usize::from(group);
        if self.slips.meets_name(group, self.maps) && !is_meant {
            let number = group.saturating_add(1);
            let message = format_args!("group {number} is named again in this map");
            return self.warnings.add(WarningKind::Repeated, at, message);
        }
        self.note_nameless(at, group)
    }

    /// Notes a number that is more likely that of a character than that of a keysym.
    pub(crate) fn note_number(&mut self, file: u32, number: &Number) -> Result<(), AllocError> {
        let value = number.value;
        let is_sought = (0x100..0x11_0000).contains(&value)
            && self.warnings.has_room(WarningKind::Idle, file)
            && self.takes_number();
        if !is_sought || has_name(value) {
            return Ok(());
        }
        let span = number.span;
        let message = format_args!(
            "0x{value:x} is the number of no keysym that has a name; the keysym of the character is U{value:04X}"
        );
        self.warnings
            .add(WarningKind::Idle, At { file, span }, message)
    }

    /// Notes a key that replaces nothing.
    pub(crate) fn note_replaced(&mut self, code: u16, name: &str) -> Result<(), AllocError> {
        let Some(at) = self.replaces_nothing(code) else {
            return Ok(());
        };
        let message = format_args!(
            "no other statement gives <{name}> anything, so that there is nothing to replace"
        );
        self.warnings.add(WarningKind::Idle, at, message)
    }
}
