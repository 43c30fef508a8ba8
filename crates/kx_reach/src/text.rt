//! The texts of a keymap.
use kx_lex::Span;

/// A text of a keymap: the name under which it is handed in, where it lies, and its bytes.
#[derive(Clone, Copy)]
pub struct Text<'a> {
    pub name: &'a str,
    pub path: &'a str,
    pub bytes: &'a [u8],
}

/// The source of a keymap, and the files handed in with it in their order.
#[derive(Clone, Copy)]
pub struct Texts<'a> {
    pub source: Text<'a>,
    pub files: &'a [Text<'a>],
}

impl<'a> Texts<'a> {
    /// The text of a number: 0 is the source, n the n-th of the files, counted from 1.
    pub fn text_of(self, number: u32) -> Option<Text<'a>> {
        match number.checked_sub(1) {
            None => Some(self.source),
            Some(place) => self.files.get(place as usize).copied(),
        }
    }
}

/// The bytes of a text in a range, as far as it has them.
pub fn bytes_in(text: &[u8], span: Span) -> &[u8] {
    let front = text.get(..span.stop as usize).unwrap_or(text);
    front.get(span.start as usize..).unwrap_or(&[])
}

/// Whether a range stands within another.
pub fn is_within(outer: Span, inner: Span) -> bool {
    outer.start <= inner.start && inner.stop <= outer.stop
}
