//! The texts that rules include.
use crate::asked::Asked;
use crate::fault::NamesFault;
use kx_reach::read_file;
use kx_rules::Texts;
use memchr::memchr_iter;
use std::alloc::{AllocError, Global};
use std::collections::BTreeMap;
use std::rt::Files;
use std::{fs, io};

/// Where so many bytes of included texts were read, no more are, since rules of so many are refused.
const MOST_INCLUDED_BYTES: usize = 4 << 20;

/// Whether a byte may stand between a sign `!`, the word `include` and the text. A line's end counts too, since a backslash
/// may stand before it.
fn is_between(byte: u8) -> bool {
    matches!(byte, b' ' | b'\t' | b'\r' | b'\n' | b'\\')
}

fn without_gap(text: &[u8]) -> &[u8] {
    match text.iter().position(|byte| !is_between(*byte)) {
        Some(place) => text.get(place..).unwrap_or(&[]),
        None => &[],
    }
}

fn is_word_byte(byte: u8) -> bool {
    byte.is_ascii_graphic() && byte != b'\\'
}

/// The text of an include, of which all after its sign `!` is given.
fn included_by(behind: &[u8]) -> Option<&[u8]> {
    let rest = without_gap(behind).strip_prefix(b"include")?;
    let rest = without_gap(rest);
    let length = rest.iter().take_while(|byte| is_word_byte(**byte)).count();
    rest.get(..length).filter(|word| !word.is_empty())
}

/// The texts of all includes of rules, and perhaps of what looks like one.
fn include_words(alloc: Global, text: &[u8]) -> Result<Vec<&[u8]>, AllocError> {
    let mut words = Vec::new(alloc);
    for place in memchr_iter(b'!', text) {
        let behind = text.get(place.saturating_add(1)..).unwrap_or(&[]);
        if let Some(word) = included_by(behind) {
            words.push(word)?;
        }
    }
    Ok(words)
}

/// Writes what a letter after a sign `%` stands for in the text of an include; whether it stands for something.
fn add_letter(asked: &Asked, letter: u8, path: &mut Vec<u8>) -> Result<bool, AllocError> {
    match (letter, asked.home) {
        (b'%', _) => path.push(b'%')?,
        (b'H', Some(home)) => path.extend_from_slice(home.as_bytes())?,
        (b'S', _) => {
            path.extend_from_slice(asked.root.as_bytes())?;
            path.extend_from_slice(b"/rules")?;
        }
        (b'E', _) => {
            path.extend_from_slice(asked.extra.as_bytes())?;
            path.extend_from_slice(b"/rules")?;
        }
        _ => return Ok(false),
    }
    Ok(true)
}

/// The path that the text of an include names; none where a letter in it has no meaning.
fn path_named(
    rt: &impl AllocGlobal,
    asked: &Asked,
    word: &[u8],
) -> Result<Option<Vec<u8>>, AllocError> {
    let mut path = Vec::new(rt.alloc());
    let mut is_letter = false;
    for byte in word {
        if is_letter {
            is_letter = false;
            if !add_letter(asked, *byte, &mut path)? {
                return Ok(None);
            }
        } else if *byte == b'%' {
            is_letter = true;
        } else {
            path.push(*byte)?;
        }
    }
    match is_letter {
        true => Ok(None),
        false => Ok(Some(path)),
    }
}

/// The kind of a fault that is to be tried again.
const LATER: io::ErrorKind = io::ErrorKind::WouldBlock;

/// Nothing, where a file can't be read; a fault, where it is to be tried again.
fn unread<T>(alloc: Global, path: &str, fault: &io::Error) -> Result<Option<T>, NamesFault> {
    match fault.kind() {
        io::ErrorKind::OutOfMemory => Err(NamesFault::Memory),
        LATER => Err(NamesFault::File(String::from_str(alloc, path)?)),
        _ => Ok(None),
    }
}

/// The bytes of the plain file at a path; none where there is none that can be read.
fn read_plain(rt: &(impl Files + AllocGlobal), path: &str) -> Result<Option<Vec<u8>>, NamesFault> {
    let is_plain = match fs::metadata(rt, path) {
        Ok(found) => found.is_file(),
        Err(fault) => return unread(rt.alloc(), path, &fault),
    };
    if !is_plain {
        return Ok(None);
    }
    match read_file(rt, path) {
        Ok(bytes) => Ok(Some(bytes)),
        Err(fault) => unread(rt.alloc(), path, &fault),
    }
}

/// The text that an include means; none where it isn't there.
fn included(
    rt: &(impl Files + AllocGlobal),
    asked: &Asked,
    word: &[u8],
) -> Result<Option<Vec<u8>>, NamesFault> {
    let Some(path) = path_named(rt, asked, word)? else {
        return Ok(None);
    };
    match str::from_utf8(path.as_slice()) {
        Ok(path) => read_plain(rt, path),
        Err(_) => Ok(None),
    }
}

/// The texts that rules include, and those that these include, by their words: those that were found, and those that are still
/// to be looked for. One that isn't there is left out. Where one is to be tried again it stays as it was, and may go on.
#[derive(Drop)]
pub(crate) struct Search {
    texts: Texts,
    waiting: Vec<Vec<u8>>,
    known: BTreeMap<Vec<u8>, ()>,
    /// So many bytes may still be read.
    left: usize,
}

impl Search {
    /// The search for what rules include.
    ///
    /// # Errors
    /// Where a growth is refused.
    pub(crate) fn of(alloc: Global, rules: &[u8]) -> Result<Search, AllocError> {
        let mut search = Search {
            texts: Texts::new(alloc),
            waiting: Vec::new(alloc),
            known: BTreeMap::new(alloc),
            left: MOST_INCLUDED_BYTES,
        };
        search.meet_all(alloc, rules)?;
        Ok(search)
    }

    /// The texts that were found.
    pub(crate) fn texts(&self) -> &Texts {
        &self.texts
    }

    /// Lets a word wait, the first time that it is met.
    fn meet(&mut self, alloc: Global, word: &[u8]) -> Result<(), AllocError> {
        if self.known.get(word).is_none() {
            self.known.insert(Vec::from_slice(alloc, word)?, ())?;
            self.wait(Vec::from_slice(alloc, word)?)?;
        }
        Ok(())
    }

    fn wait(&mut self, word: Vec<u8>) -> Result<(), AllocError> {
        self.waiting.push(word)?;
        Ok(())
    }

    /// Lets the words of a text's includes wait.
    fn meet_all(&mut self, alloc: Global, text: &[u8]) -> Result<(), AllocError> {
        let words = include_words(alloc, text)?;
        for word in words.as_slice() {
            self.meet(alloc, word)?;
        }
        Ok(())
    }

    /// Adds a text that was found.
    fn add(&mut self, alloc: Global, word: Vec<u8>, text: Vec<u8>) -> Result<(), AllocError> {
        self.left = self.left.saturating_sub(text.len());
        self.meet_all(alloc, text.as_slice())?;
        self.texts.insert(word, text)
    }

    /// Looks for the text of a word, which waits on where it is to be tried again.
    fn look(
        &mut self,
        rt: &(impl Files + AllocGlobal),
        asked: &Asked,
        word: Vec<u8>,
    ) -> Result<(), NamesFault> {
        match included(rt, asked, word.as_slice()) {
            Ok(Some(text)) => Ok(self.add(rt.alloc(), word, text)?),
            Ok(None) => Ok(()),
            Err(fault) => {
                self.wait(word)?;
                Err(fault)
            }
        }
    }

    /// Goes on to the end.
    ///
    /// # Errors
    /// Where a text is to be tried again, or no memory is left.
    pub(crate) fn go_on(
        &mut self,
        rt: &(impl Files + AllocGlobal),
        asked: &Asked,
    ) -> Result<(), NamesFault> {
        for _ in 0..u64::MAX {
            if self.left == 0 {
                break;
            }
            let Some(word) = self.waiting.pop() else {
                break;
            };
            self.look(rt, asked, word)?;
        }
        Ok(())
    }
}
