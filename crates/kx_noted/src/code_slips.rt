//! Likely slips in keycodes.
use crate::kind::WarningKind;
use crate::statements::Reader;
use kx_include::{Entry as MapEntry, Expansion};
use kx_lex::{At, KeyName};
use kx_parse::Statement;
use std::alloc::AllocError;

fn shown(name: &[u8]) -> &str {
    str::from_utf8(name).unwrap_or("")
}

/// The name and the code that an entry of a map pairs.
fn pair_of<'l>(entry: &MapEntry<'l>) -> Option<(&'l KeyName, u32)> {
    let MapEntry::Own(stated) = entry else {
        return None;
    };
    match &stated.statement {
        Statement::Keycode { name, code } => Some((name, code.value)),
        _ => None,
    }
}

impl Reader<'_, '_, '_> {
    /// The code that a name has itself, and not as an alias.
    fn kept_code(&self, name: &[u8]) -> Option<u16> {
        let code = self.read.codes.code_of(name)?;
        if self.read.codes.name_of(code) == Some(name) {
            Some(code)
        } else {
            None
        }
    }

    /// Notes a keycode that another statement takes from its name, or that its name doesn't keep.
    pub(crate) fn note_code(
        &mut self,
        file: u32,
        name: &KeyName,
        code: u32,
    ) -> Result<(), AllocError> {
        let span = name.span();
        let at = At { file, span };
        let read = self.read;
        let Ok(code) = u16::try_from(code) else {
            return Ok(());
        };
        let word = name.as_slice();
        let holder = read.codes.name_of(code);
        if holder == Some(word) {
            return self.slips.keep_code(code, at);
        }
        if let Some(kept) = self.kept_code(word) {
            let word = shown(word);
            let message = format_args!("another statement gives <{word}> the code {kept}");
            return self.warnings.add(WarningKind::Repeated, at, message);
        }
        let word = shown(word);
        let Some(other) = holder else {
            let message = format_args!("another statement takes the code {code} from <{word}>");
            return self.warnings.add(WarningKind::Repeated, at, message);
        };
        let other = shown(other);
        let message = format_args!(
            "another statement gives the code {code} of <{word}> to <{other}>"
        );
        self.warnings.add(WarningKind::Repeated, at, message)
    }

    /// Notes an alias that stands for no code.
    pub(crate) fn note_alias(
        &mut self,
        file: u32,
        name: &KeyName,
        target: &KeyName,
    ) -> Result<(), AllocError> {
        let read = self.read;
        if read.codes.code_of(name.as_slice()).is_some() {
            return Ok(());
        }
        let span = target.span();
        let at = At { file, span };
        let word = target.as_slice();
        if read.codes.code_of(word).is_none() {
            return self.note_unknown_key(at, word);
        }
        let word = shown(word);
        let message = format_args!(
            "<{word}> is an alias itself, and an alias of an alias has no keycode"
        );
        self.warnings.add(WarningKind::Keys, at, message)
    }

    /// Notes that a pair of an installed file lost its code to the author's.
    fn note_taken(&mut self, name: &KeyName, code: u32) -> Result<(), AllocError> {
        let read = self.read;
        let word = name.as_slice();
        let Ok(code) = u16::try_from(code) else {
            return Ok(());
        };
        let Some(at) = self.slips.place_of_code(code) else {
            return Ok(());
        };
        if read.codes.name_of(code) == Some(word) || read.codes.code_of(word).is_some() {
            return Ok(());
        }
        let word = shown(word);
        let message = format_args!("the code {code} is taken from <{word}>, which has none then");
        self.warnings.add(WarningKind::Repeated, at, message)
    }

    /// Notes the keys that have no keycode since the author's text gives theirs to others.
    pub(crate) fn note_taken_codes(&mut self, expansion: &Expansion) -> Result<(), AllocError> {
        if !self.slips.has_codes() {
            return Ok(());
        }
        for map in expansion.maps.as_slice() {
            if !self.is_installed(map.place.file) {
                continue;
            }
            for entry in map.entries.as_slice() {
                if let Some((name, code)) = pair_of(entry) {
                    self.note_taken(name, code)?;
                }
            }
        }
        Ok(())
    }
}
