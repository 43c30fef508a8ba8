//! The names of keysyms.
ghost use Rattle.std.specs.Prelude.{◌≡◌, ◌<◌, ◌≤◌, ◌⊎◌, true, false, None, Some, [], ◌∷◌, length, IfOk, IfErr, IfSome, OnOk, slice_get, if◌then◌else◌};
ghost use Rattle.std.specs.List.{list_all};
ghost use Rattle.std.specs.Option.{option_map, option_or};
ghost use Rattle.std.specs.Str.{IsAscii, is_utf8};
ghost use Rattle.ks_core.specs.BuiltIn.{built_in};
ghost use Rattle.ks_core.specs.Entry.{keysym_in, name_in};
ghost use Rattle.ks_core.specs.Lines.{lines_of, given_by, is_sound, AreFaultless, IsFirstFault};
ghost use Rattle.ks_core.specs.Name.{u_keysym, hex_keysym};
ghost use Rattle.ks_core.specs.Table.{letters_of, with_names, x11_table};
ghost use Rattle.ks_core.specs.Names.{four_digits, hex_digits, keysym_named, name_of_keysym, name_of_number, is_word_or_number, is_written_back};

use crate::builtin;
use crate::digits::{hex_number, push_hex};
use crate::fault::NameFault;
use crate::further::Further;
use crate::given::Given;
use crate::keysym::Keysym;
use crate::letters::Letters;
use crate::line::{first_line, hex_digits, u_digits};
use arrayvec::ArrayString;
use kx_basics::is_keysym;
use std::alloc::Global;
use std::marker::Model;

/// The names of keysyms: the built-in ones, and those of X11 or those that lines gave. With them go its letters.
#[derive(Drop)]
pub struct NameTable {
    further: Further,
}

impl Model for NameTable {
    ghost use Rattle.std.specs.Prelude.{◌≡◌, true};
    ghost use Rattle.std.specs.List.{list_all};
    ghost use Rattle.ks_core.specs.Lines.{is_sound};
    ghost use Rattle.ks_core.specs.Table.{KeysymTable, table_of};

    ghost Value = { KeysymTable };

    ghost view = { λ t. table_of t.further };

    ghost invariant = { λ t. list_all is_sound (table_of t.further).names ≡ true };
}

impl NameTable {
    /// The built-in names alone.
    pub fn builtin() -> NameTable
        ensures { result ≡ with_names [] }
    {
        NameTable {
            further: Further::None,
        }
    }

    /// The built-in names and all others of X11 and XFree86, with the letters of Unicode's simple case mapping. Of a name that
    /// begins with `XF86` that with `XF86_` is another. Names that begin with a digit aren't there, since no text can have them.
    pub fn x11() -> NameTable
        ensures { result ≡ x11_table }
    {
        NameTable {
            further: Further::X11,
        }
    }

    /// The built-in names, and those of the lines.
    ///
    /// A line is a name, blanks, and a value in decimal or of the `0x` form. Empty lines and those
    /// that begin with `#` are skipped.
    pub fn with_lines(alloc: Global, lines: &[u8]) -> Result<NameTable, NameFault>
        ensures faultless { OnOk result (AreFaultless (lines_of lines.now)) }
        ensures names { IfOk result (λ table. table ≡ with_names (given_by (lines_of lines.now))) }
        ensures fault { IfErr result (λ fault. (fault ≡ NameFault.Memory)
            ⊎ IsFirstFault (lines_of lines.now) fault) }
    {
        let given = read_lines(alloc, lines)?;
        Ok(NameTable {
            further: Further::Lines(given),
        })
    }

    /// Which keysyms are letters.
    pub fn letters(&self) -> Letters
        ensures { letters_of result ≡ self.now.letters }
    {
        self.further.letters()
    }

    /// The keysym with that built-in name, given as bytes. Bytes that are one are ASCII.
    pub fn built_in(name: &[u8]) -> Option<Keysym>
        ensures value { option_map (λ keysym. keysym.0) result ≡ keysym_in built_in name.now }
        ensures within { IfSome result (λ keysym. is_written_back keysym.0 ≡ true) }
        ensures ascii { IfSome result (λ keysym. IsAscii name.now) }
    {
        match builtin::keysym_of(name) {
            Some(keysym) => Some(Keysym(keysym)),
            None => None,
        }
    }

    /// The built-in name at a place, counted from 0, where there is one: the names by keysym.
    pub fn built_in_at(place: usize) -> Option<&'static str>
        ensures { option_map (λ name. name.now) result
            ≡ option_map (λ e. e.0) (slice_get built_in place) }
    {
        builtin::name_at(place)
    }

    /// The further name at a place, counted from 0, where there is one: those of X11 or of lines in their order.
    pub fn further_at(&self, place: usize) -> Option<&str>
        ensures { option_map (λ name. name.now) result
            ≡ option_map (λ e. e.0) (slice_get self.now.names place) }
    {
        self.further.name_at(place)
    }

    /// The keysym with that name: a built-in name, another name of the table, `U` and the number of a
    /// character, or `0x` and the number of a keysym.
    #[tactic(auto, unfolding(crate::specs::Names::keysym_named))]
    pub fn by_name(&self, name: &str) -> Option<Keysym>
        ensures value { option_map (λ keysym. keysym.0) result ≡ keysym_named self.now name.now }
        ensures within { IfSome result (λ keysym. is_written_back keysym.0 ≡ true) }
    {
        if let Some(keysym) = builtin::keysym_of(name.as_bytes()) {
            return Some(Keysym(keysym));
        }
        if let Some(keysym) = self.further_keysym(name) {
            return Some(Keysym(keysym));
        }
        if let Some(keysym) = u_form(name.as_bytes()) {
            return Some(Keysym(keysym));
        }
        match hex_form(name.as_bytes()) {
            Some(keysym) => Some(Keysym(keysym)),
            None => None,
        }
    }

    /// The same of a name that is given as bytes; none where these are no text.
    #[tactic(auto, using(crate::proofs::TextLemmas::built_in_text, crate::proofs::TextLemmas::of_text))]
    pub fn by_bytes(&self, name: &[u8]) -> Option<Keysym>
        ensures value { option_map (λ keysym. keysym.0) result
            ≡ (if is_utf8 name.now then keysym_named self.now name.now else None) }
        ensures within { IfSome result (λ keysym. is_written_back keysym.0 ≡ true) }
    {
        if let Some(keysym) = NameTable::built_in(name) {
            return Some(keysym);
        }
        if let Some(keysym) = self.further_keysym_of_bytes(name) {
            return Some(Keysym(keysym));
        }
        match str::from_utf8(name) {
            Ok(text) => self.by_name(text),
            Err(_) => None,
        }
    }

    /// Sets `text` to the name of the keysym: its first name, else the U form of its character, else
    /// the 0x form of its number.
    #[tactic(auto, unfolding(crate::specs::Names::name_of_keysym))]
    pub fn write_name(&self, keysym: Keysym, text: &mut ArrayString<64>)
        ensures written { text.new.bytes ≡ name_of_keysym self.now keysym.0 }
        ensures read_back { is_written_back keysym.0 ≡ true
            → keysym_named self.now text.new.bytes ≡ Some keysym.0 }
        ensures lexical { is_word_or_number text.new.bytes ≡ true }
        ensures sound { list_all is_sound self.now.names ≡ true }
    {
        let number = keysym.0;
        text.clear();
        match self.first_name(number) {
            Some(name) => text.push_str(name),
            None => write_number(text, number),
        }
    }

    /// The first name of the keysym, a built-in one before the others.
    fn first_name(&self, keysym: u32) -> Option<&str>
        ensures sound { list_all is_sound self.now.names ≡ true }
        ensures first { option_map (λ name. name.now) result
            ≡ option_or (name_in built_in keysym) (name_in self.now.names keysym) }
        ensures short { IfSome result (λ name. length name.now ≤ 64) }
        ensures back { IfSome result (λ name. keysym_named self.now name.now ≡ Some keysym) }
        ensures lexical { IfSome result (λ name. is_word_or_number name.now ≡ true) }
    {
        // No effect: the proof reads the invariant of the further names.
        let _ = &self.further;
        match builtin::name_of(keysym) {
            Some(name) => Some(name),
            None => self.further_name(keysym),
        }
    }

    fn further_keysym(&self, name: &str) -> Option<u32>
        ensures value { result ≡ keysym_in self.now.names name.now }
        ensures within { IfSome result (λ keysym. is_written_back keysym ≡ true) }
    {
        self.further.keysym_of(name)
    }

    fn further_keysym_of_bytes(&self, name: &[u8]) -> Option<u32>
        ensures value { IfSome result (λ keysym. Some keysym ≡ keysym_in self.now.names name.now) }
        ensures sound { list_all is_sound self.now.names ≡ true }
    {
        self.further.keysym_of_bytes(name)
    }

    fn further_name(&self, keysym: u32) -> Option<&str>
        ensures first { option_map (λ name. name.now) result ≡ name_in self.now.names keysym }
        ensures back { IfSome result (λ name. keysym_in self.now.names name.now ≡ Some keysym) }
        ensures sound { IfSome result (λ name. is_sound (name.now, keysym) ≡ true) }
    {
        self.further.name_of(keysym)
    }
}

/// The names that the lines give.
fn read_lines(alloc: Global, lines: &[u8]) -> Result<Given, NameFault>
    ensures faultless { OnOk result (AreFaultless (lines_of lines.now)) }
    ensures names { IfOk result (λ given. given ≡ given_by (lines_of lines.now)) }
    ensures sound { IfOk result (λ given. list_all is_sound given ≡ true) }
    ensures fault { IfErr result (λ fault. (fault ≡ NameFault.Memory)
        ⊎ IsFirstFault (lines_of lines.now) fault) }
{
    let mut given = Given::new(alloc);
    let mut number = 0usize;
    let mut left = Some(lines);
    while let Some(text) = left {
        let (line, rest) = first_line(text);
        number += 1;
        given.read(alloc, line, number)?;
        left = rest;
    }
    Ok(given)
}

/// The keysym of a name of the U form.
#[tactic(auto, unfolding(crate::specs::Name::u_keysym))]
fn u_form(name: &[u8]) -> Option<u32>
    ensures value { result ≡ u_keysym name.now }
    ensures within { IfSome result (λ keysym. is_written_back keysym ≡ true) }
{
    let Some(digits) = u_digits(name) else {
        return None;
    };
    match hex_number(digits) {
        character @ (0x20..=0x7e | 0xa0..=0xff) => Some(character),
        character @ 0x100..=0x10_ffff => Some(0x0100_0000 + character),
        _ => None,
    }
}

/// The keysym of a name of the 0x form.
#[tactic(auto, unfolding(crate::specs::Name::hex_keysym))]
fn hex_form(name: &[u8]) -> Option<u32>
    ensures value { result ≡ hex_keysym name.now }
    ensures within { IfSome result (λ keysym. is_written_back keysym ≡ true) }
{
    let Some(digits) = hex_digits(name) else {
        return None;
    };
    let keysym = hex_number(digits);
    if is_keysym(keysym) {
        Some(keysym)
    } else {
        None
    }
}

/// Writes the name of a keysym by its number.
#[tactic(auto, unfolding(crate::specs::Names::name_of_number))]
fn write_number(text: &mut ArrayString<64>, keysym: u32)
    requires { text.old.bytes ≡ [] }
    ensures { text.new.bytes ≡ name_of_number keysym }
{
    if 0x0100_0100 <= keysym && keysym <= 0x0110_ffff {
        write_character(text, keysym - 0x0100_0000);
    } else {
        write_hex(text, keysym);
    }
}

/// Writes `U` and the number of a character, in at least four digits.
fn write_character(text: &mut ArrayString<64>, character: u32)
    requires empty { text.old.bytes ≡ [] }
    requires low { 0x100 ≤ character }
    requires high { character ≤ 0x10ffff }
    ensures { text.new.bytes ≡ 85 ∷ four_digits (hex_digits true character) }
{
    if character < 0x1000 {
        text.push_str("U0");
        push_hex(text, character, true);
    } else {
        text.push_str("U");
        push_hex(text, character, true);
    }
}

/// Writes `0x` and the number.
fn write_hex(text: &mut ArrayString<64>, number: u32)
    requires { text.old.bytes ≡ [] }
    ensures { text.new.bytes ≡ 48 ∷ 120 ∷ hex_digits false number }
{
    text.push_str("0x");
    push_hex(text, number, false);
}
