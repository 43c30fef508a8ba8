//! The likely slip where no tree goes on.
use kx_lex::Span;

/// The last byte before a place that is no blank.
fn byte_before(text: &[u8], span: Span) -> Option<u8> {
    let before = text.get(..span.start as usize)?;
    before.trim_ascii_end().last().copied()
}

/// Whether a keysym of a character is cut by a sign, as `U+20AC`.
fn is_character(text: &[u8], span: Span) -> bool {
    let start = span.start as usize;
    let before = text.get(..start).unwrap_or(&[]);
    let behind = text.get(start..).unwrap_or(&[]);
    match behind {
        [b'+', digit, ..] => {
            digit.is_ascii_hexdigit() && (before.ends_with(b"U") || before.ends_with(b"u"))
        }
        _ => false,
    }
}

/// What was likely meant where something stands in the place of what is wanted.
pub(crate) fn likely_slip(wanted: &str, text: &[u8], span: Span) -> Option<&'static str> {
    let behind = text.get(span.start as usize..).unwrap_or(&[]);
    let before = byte_before(text, span);
    match behind.first()? {
        b'/' if behind.starts_with(b"/*") => {
            Some("a comment begins with '//' or '#', and ends with its line")
        }
        b'+' if is_character(text, span) => {
            Some("the keysym of a character is written without a sign, as U20AC")
        }
        b';' if before == Some(b'"') && wanted.starts_with("a statement") => {
            Some("no ';' stands behind an include")
        }
        b'}' | b']' | b')' if before == Some(b',') => Some("no ',' stands behind the last"),
        b'{' if wanted.starts_with("'=' after a key's name") => {
            Some("in symbols 'key' stands before a key's name")
        }
        _ => None,
    }
}
