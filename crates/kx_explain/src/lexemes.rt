//! What is wrong with bytes that are no token.
use crate::quotes::quoted;
use kx_lex::Span;
use kx_reach::bytes_in;
use std::alloc::AllocError;

/// Says how long a text is that is too long.
pub(crate) fn write_too_long(out: &mut String, span: Span) -> Result<(), AllocError> {
    let length = span.stop;
    write!(out, "a text of {length} bytes, more than 1,048,576")
}

/// The character that begins a text.
fn first_character(text: &[u8]) -> Option<char> {
    for length in 1..5 {
        if let Ok(character) = str::from_utf8(text.get(..length)?) {
            return character.chars().next();
        }
    }
    None
}

const STRAIGHT_QUOTES: &str = "a text stands between straight double quotes, as \"us\"";

/// Whether a character is written in the place of a straight double quote.
fn is_quote(character: char) -> bool {
    matches!(
        character,
        '\'' | '`' | '´' | '“' | '”' | '„' | '‘' | '’' | '«' | '»'
    )
}

/// Says which character that stands for a mark begins nothing, and which mark does; answers whether it is one.
fn write_mistaken_mark(out: &mut String, front: &[u8]) -> Result<bool, AllocError> {
    let Some(character) = first_character(front) else {
        return Ok(false);
    };
    let wanted = match character {
        ':' => "a value stands behind '='",
        quote if is_quote(quote) => STRAIGHT_QUOTES,
        _ => return Ok(false),
    };
    write!(out, "'{character}' begins nothing here: {wanted}")?;
    Ok(true)
}

/// Says which character stands outside quotes, and how its keysym is written.
fn write_character(out: &mut String, front: &[u8], character: char) -> Result<(), AllocError> {
    let words = quoted(front.get(..character.len_utf8()).unwrap_or(front));
    write!(out, "{words} stands outside quotes and comments")?;
    if character.is_alphanumeric() {
        let number = u32::from(character);
        write!(out, "; as a keysym it is U{number:04X}")?;
    }
    Ok(())
}

/// Says which byte begins nothing.
pub(crate) fn write_bad_byte(out: &mut String, text: &[u8], span: Span) -> Result<(), AllocError> {
    let front = text.get(span.start as usize..).unwrap_or(&[]);
    let Some(byte) = front.first() else {
        return Ok(());
    };
    if front.starts_with(b"%%\r") {
        return out.push_str("'%%' with a carriage return behind it ends no source");
    }
    if write_mistaken_mark(out, front)? {
        return Ok(());
    }
    if byte.is_ascii_graphic() {
        let mark = quoted(bytes_in(text, span));
        return write!(out, "{mark} begins nothing that a keymap has");
    }
    match first_character(front) {
        Some(character) if !byte.is_ascii() => write_character(out, front, character),
        _ => write!(
            out,
            "the byte 0x{byte:02x} stands outside quotes and comments"
        ),
    }
}

/// Says which text isn't closed.
pub(crate) fn write_open_text(out: &mut String, text: &[u8], span: Span) -> Result<(), AllocError> {
    let words = quoted(bytes_in(text, span));
    write!(out, "{words} is not closed by '\"' on its line")
}

/// Says which key's name isn't closed.
pub(crate) fn write_open_name(out: &mut String, text: &[u8], span: Span) -> Result<(), AllocError> {
    let words = quoted(bytes_in(text, span));
    write!(out, "the key's name {words} is not closed by '>'")
}

/// Says which number is too great.
pub(crate) fn write_number(out: &mut String, text: &[u8], span: Span) -> Result<(), AllocError> {
    let number = quoted(bytes_in(text, span));
    write!(out, "{number} is above 4,294,967,295")
}
