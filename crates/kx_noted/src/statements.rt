//! What is passed over in statements.
use crate::kind::WarningKind;
use crate::names::{near_key, near_keysym};
use crate::slips::Slips;
use crate::warning::Warnings;
use ks_core::Notes;
use kx_actions::is_action_word;
use kx_explain::quoted;
use kx_include::{Entry as MapEntry, Expansion, Map};
use kx_lex::At;
use kx_parse::{
    BracePart, Call, Element, Entry, Field, KeyField, KeyName, List, Mode, Setting, Statement,
    Symbol, Value,
};
use kx_source::ReadSource;
use kx_symbols::symbol_keysym;
use std::alloc::{AllocError, Global};

/// For so many warnings of a kind a near name is looked for.
const MOST_SOUGHT: usize = 20;

/// What was met of a key.
#[derive(Clone, Copy)]
struct Met {
    /// Where it was last given something.
    at: At,
    /// The number of the map in which that stands.
    map: usize,
    /// Whether one statement alone gives it something.
    is_one: bool,
    /// Where the author's text last replaces it.
    replaced: Option<At>,
}

/// What was read of a source, what is said of it, and where each key was last given something.
#[derive(Drop)]
pub(crate) struct Reader<'a, 'l, 'f> {
    pub read: ReadSource<'a, 'l>,
    pub warnings: Box<Warnings>,
    installed: &'f [bool],
    /// By keycode.
    met: Box<Vec<Option<Met>>>,
    /// How many maps were gone through.
    pub maps: usize,
    pub slips: Box<Slips>,
    /// For how many unknown names of keysyms, of keys and of types near ones are still looked for.
    keysyms_left: usize,
    keys_left: usize,
    types_left: usize,
    /// For how many numbers of keysyms names are still looked for.
    numbers_left: usize,
}

/// Nothing met of each keycode below a number.
fn nothing_met(alloc: Global, count: u16) -> Result<Vec<Option<Met>>, AllocError> {
    let mut met = Vec::new(alloc);
    for _ in 0..count {
        met.push(None)?;
    }
    Ok(met)
}

/// Whether a word is the U form of a keysym but for its first letter.
fn is_character(word: &[u8]) -> bool {
    match word {
        [b'u', digits @ ..] => {
            (4..=6).contains(&digits.len()) && digits.iter().all(u8::is_ascii_hexdigit)
        }
        _ => false,
    }
}

/// Whether one more near name is looked for.
fn takes_one(left: &mut usize) -> bool {
    match (*left).checked_sub(1) {
        Some(rest) => {
            *left = rest;
            true
        }
        None => false,
    }
}

impl<'a, 'l, 'f> Reader<'a, 'l, 'f> {
    pub(crate) fn new(
        alloc: Global,
        read: ReadSource<'a, 'l>,
        is_whole: bool,
        installed: &'f [bool],
    ) -> Result<Reader<'a, 'l, 'f>, AllocError> {
        let warnings = Box::new(alloc, Warnings::new(alloc, is_whole, installed)?)?;
        let met = Box::new(alloc, nothing_met(alloc, read.codes.end())?)?;
        let slips = Box::new(alloc, Slips::new(alloc))?;
        Ok(Reader {
            read,
            warnings,
            installed,
            met,
            maps: 0,
            slips,
            keysyms_left: MOST_SOUGHT,
            keys_left: MOST_SOUGHT,
            types_left: MOST_SOUGHT,
            numbers_left: MOST_SOUGHT,
        })
    }

    /// Whether a file is installed.
    pub(crate) fn is_installed(&self, file: u32) -> bool {
        match (file as usize).checked_sub(1) {
            Some(place) => self.installed.get(place).copied().unwrap_or(false),
            None => false,
        }
    }

    /// Where a key was last given something: in the source, else in a file of the author's, else in one that is installed.
    pub(crate) fn place_of(&self, code: u16) -> Option<At> {
        match self.met.get(usize::from(code)) {
            Some(Some(met)) => Some(met.at),
            _ => None,
        }
    }

    /// Whether a name is looked for of a further number.
    pub(crate) fn takes_number(&mut self) -> bool {
        takes_one(&mut self.numbers_left)
    }

    /// Where the author's text replaces a key to which nothing else gives anything.
    pub(crate) fn replaces_nothing(&self, code: u16) -> Option<At> {
        match self.met.get(usize::from(code)) {
            Some(Some(met)) if met.is_one => met.replaced,
            _ => None,
        }
    }

    /// Whether a near name is looked for, for a further warning of unknown names of types in a text.
    pub(crate) fn seeks_type(&mut self, file: u32) -> bool {
        self.warnings.has_room(WarningKind::Types, file) && takes_one(&mut self.types_left)
    }
}

impl Reader<'_, '_, '_> {
    fn note_symbol(&mut self, file: u32, symbol: &Symbol) -> Result<(), AllocError> {
        let word = match symbol {
            Symbol::Word(word) => word,
            Symbol::Number(number) if !self.is_installed(file) => {
                return self.note_number(file, number);
            }
            Symbol::Number(_) => return Ok(()),
        };
        if self.read.notes.keysyms == 0 {
            return Ok(());
        }
        let mut notes = Notes::new();
        let _ = symbol_keysym(self.read.names, file, symbol, &mut notes);
        if notes.keysyms == 0 {
            return Ok(());
        }
        let span = word.span;
        self.note_unknown_keysym(At { file, span }, word.bytes.as_slice())
    }

    /// Notes a name that no keysym has.
    fn note_unknown_keysym(&mut self, at: At, word: &[u8]) -> Result<(), AllocError> {
        let kind = WarningKind::Keysyms;
        let is_sought = self.warnings.has_room(kind, at.file) && takes_one(&mut self.keysyms_left);
        let near = if is_sought {
            near_keysym(self.read.names, word)
        } else {
            None
        };
        let name = quoted(word);
        match near.map(quoted) {
            _ if is_character(word) => {
                let message = format_args!(
                    "no keysym is named {name}; the keysym of a character begins with a capital U"
                );
                self.warnings.add(kind, at, message)
            }
            Some(near) => {
                let message = format_args!("no keysym is named {name}; {near} is one");
                self.warnings.add(kind, at, message)
            }
            None => self
                .warnings
                .add(kind, at, format_args!("no keysym is named {name}")),
        }
    }

    fn note_call(&mut self, file: u32, call: &Call) -> Result<(), AllocError> {
        if self.read.notes.actions == 0 {
            return Ok(());
        }
        let word = call.word.bytes.as_slice();
        if is_action_word(word) {
            return Ok(());
        }
        let span = call.word.span;
        self.warnings.add_idle(At { file, span }, word)
    }

    fn note_part(&mut self, file: u32, part: &BracePart) -> Result<(), AllocError> {
        match part {
            BracePart::Symbol(symbol) => self.note_symbol(file, symbol),
            BracePart::Call(call) => self.note_call(file, call),
        }
    }

    fn note_element(&mut self, file: u32, element: &Element) -> Result<(), AllocError> {
        match element {
            Element::Symbol(symbol) => self.note_symbol(file, symbol),
            Element::Call(call) => self.note_call(file, call.get()),
            Element::Braces(braces) => {
                for part in braces.parts.as_slice() {
                    self.note_part(file, part)?;
                }
                Ok(())
            }
        }
    }

    fn note_list(&mut self, file: u32, list: &List) -> Result<(), AllocError> {
        for element in list.elements.as_slice() {
            self.note_element(file, element)?;
        }
        Ok(())
    }

    fn note_field(&mut self, file: u32, field: &Field) -> Result<(), AllocError> {
        match &field.setting {
            Setting::To(Value::Call(call)) => self.note_call(file, call),
            Setting::To(Value::List(list)) => self.note_list(file, list),
            _ => Ok(()),
        }
    }

    /// Notes a key's name without a code.
    pub(crate) fn note_unknown_key(&mut self, at: At, word: &[u8]) -> Result<(), AllocError> {
        let kind = WarningKind::Keys;
        let is_sought = self.warnings.has_room(kind, at.file) && takes_one(&mut self.keys_left);
        let near = if is_sought {
            near_key(self.read.codes, word)
        } else {
            None
        };
        let name = str::from_utf8(word).unwrap_or("");
        match near.and_then(|near| str::from_utf8(near).ok()) {
            Some(near) => {
                let message = format_args!("no keycode is named <{name}>; <{near}> is one");
                self.warnings.add(kind, at, message)
            }
            None => self
                .warnings
                .add(kind, at, format_args!("no keycode is named <{name}>")),
        }
    }

    /// Notes a key that is written again in its map.
    fn note_again(&mut self, at: At, name: &KeyName) -> Result<(), AllocError> {
        let name = str::from_utf8(name.as_slice()).unwrap_or("");
        let message = format_args!(
            "the key <{name}> is written again in this map; if that is meant, write 'override key'"
        );
        self.warnings.add(WarningKind::Again, at, message)
    }

    /// Whether a place stays that of a key where another comes after it: one in the source, and one in a file of the author's
    /// before an installed one.
    fn stays(&self, met: At, at: At) -> bool {
        met.file == 0 && at.file > 0 || self.is_installed(at.file) && !self.is_installed(met.file)
    }

    /// Keeps where a key is given something, as far as no place before it is nearer to the author; answers whether the map gave
    /// it something before.
    fn meet(&mut self, code: u16, at: At, mode: Mode) -> bool {
        let map = self.maps;
        let is_own = !self.is_installed(at.file);
        let replaced = if is_own && mode == Mode::Replace {
            Some(at)
        } else {
            None
        };
        let Some(Some(met)) = self.met.get(usize::from(code)).copied() else {
            let is_one = true;
            self.keep(
                code,
                Met {
                    at,
                    map,
                    is_one,
                    replaced,
                },
            );
            return false;
        };
        let at = if self.stays(met.at, at) { met.at } else { at };
        let is_one = false;
        self.keep(
            code,
            Met {
                at,
                map,
                is_one,
                replaced,
            },
        );
        met.map == map
    }

    fn keep(&mut self, code: u16, met: Met) {
        if let Some(place) = self.met.get_mut(usize::from(code)) {
            *place = Some(met);
        }
    }

    /// Notes a key's name without a code, and one that is written again without a word before `key`.
    fn note_key(
        &mut self,
        file: u32,
        name: &KeyName,
        mode: Mode,
        is_meant: bool,
    ) -> Result<(), AllocError> {
        let span = name.span();
        let at = At { file, span };
        let Some(code) = self.read.codes.code_of(name.as_slice()) else {
            return self.note_unknown_key(at, name.as_slice());
        };
        if self.meet(code, at, mode) && !is_meant {
            self.note_again(at, name)?;
        }
        Ok(())
    }

    fn note_key_field(&mut self, file: u32, field: &KeyField) -> Result<(), AllocError> {
        match field {
            KeyField::Field(field) => self.note_field(file, field.get()),
            KeyField::List(list) => self.note_list(file, list),
        }
    }

    fn note_entry(&mut self, file: u32, entry: &Entry) -> Result<(), AllocError> {
        match entry {
            Entry::Symbol(symbol) => self.note_symbol(file, symbol),
            Entry::KeyName(name) if self.read.codes.code_of(name.as_slice()).is_none() => {
                let span = name.span();
                self.note_unknown_key(At { file, span }, name.as_slice())
            }
            Entry::KeyName(_) => Ok(()),
        }
    }

    /// Notes what is passed over in a statement; `is_meant` where a word says how it joins others.
    fn note_statement(
        &mut self,
        file: u32,
        statement: &Statement,
        mode: Mode,
        is_meant: bool,
    ) -> Result<(), AllocError> {
        match statement {
            Statement::Key { name, fields } => {
                self.note_key(file, name, mode, is_meant)?;
                for field in fields.as_slice() {
                    self.note_key_field(file, field)?;
                }
            }
            Statement::ModifierMap { entries, .. } => {
                for entry in entries.as_slice() {
                    self.note_entry(file, entry)?;
                }
            }
            Statement::Interpretation { symbol, fields, .. } => {
                self.note_symbol(file, symbol)?;
                for field in fields.as_slice() {
                    self.note_field(file, field)?;
                }
            }
            Statement::Field(field) => self.note_field(file, field.get())?,
            _ => {}
        }
        Ok(())
    }

    /// Notes likely slips in a statement of the author's.
    fn note_slips(
        &mut self,
        file: u32,
        statement: &Statement,
        is_meant: bool,
    ) -> Result<(), AllocError> {
        match statement {
            Statement::Keycode { name, code } => self.note_code(file, name, code.value),
            Statement::Alias { name, target } => self.note_alias(file, name, target),
            Statement::KeyType { name, fields } => {
                self.note_type_again(file, name, is_meant)?;
                self.note_type_levels(file, name)?;
                self.note_type_fields(file, fields.as_slice())
            }
            Statement::Interpretation { symbol, fields, .. } => {
                self.note_interpreted(file, symbol)?;
                self.note_truths(file, fields.as_slice())
            }
            Statement::Key { fields, .. } => self.note_key_truths(file, fields.as_slice()),
            Statement::ModifierMap { entries, .. } => {
                self.note_map_entries(file, entries.as_slice())
            }
            Statement::Field(field) => {
                self.note_truth(file, field.get())?;
                self.note_group_name(file, field.get(), is_meant)
            }
            Statement::IndicatorName { .. }
            | Statement::VirtualModifiers(_)
            | Statement::Indicator { .. }
            | Statement::Group { .. } => Ok(()),
        }
    }

    fn note_map(&mut self, map: &Map) -> Result<(), AllocError> {
        let file = map.place.file;
        let is_own = !self.is_installed(file);
        self.maps = self.maps.saturating_add(1);
        for entry in map.entries.as_slice() {
            if let MapEntry::Own(stated) = entry {
                let is_meant = stated.span.start < stated.first.start;
                self.note_statement(file, &stated.statement, stated.mode, is_meant)?;
                if is_own {
                    self.note_slips(file, &stated.statement, is_meant)?;
                }
            }
        }
        Ok(())
    }

    /// Notes what is passed over in the source's own statements of a kind.
    pub(crate) fn note_own(&mut self, expansion: &Expansion) -> Result<(), AllocError> {
        for section in expansion.sections.as_slice() {
            self.note_map(section)?;
        }
        Ok(())
    }

    /// Notes what is passed over in the statements of a kind of the files that are installed, or of the others: each map once.
    pub(crate) fn note_files(
        &mut self,
        expansion: &Expansion,
        is_installed: bool,
    ) -> Result<(), AllocError> {
        for map in expansion.maps.as_slice() {
            if self.is_installed(map.place.file) == is_installed {
                self.note_map(map)?;
            }
        }
        Ok(())
    }
}
