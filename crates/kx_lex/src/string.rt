//! What text between quotes stands for.
ghost use Rattle.std.specs.Prelude.{◌≡◌, ℕ, List, ◌∷◌, ◌++◌, IfOk};
ghost use Rattle.kx_lex.specs.Strings.{text_value, escaped_byte, is_octal, octal_goes_on};
ghost use Rattle.kx_lex.specs.declared.string.EscapeState.TheVariants.{Plain, Escaped, Octal};

use std::alloc::{AllocError, Global};

/// What stands before a byte of text between quotes.
#[derive(Clone, Copy, PartialEq, Eq)]
pub enum EscapeState {
    /// Nothing that changes the byte.
    Plain,
    /// A backslash.
    Escaped,
    /// A backslash and octal digits: their value, and how many there are.
    Octal(u8, u8),
}

fn escaped_byte(byte: u8) -> u8
    ensures { result ≡ escaped_byte byte }
{
    match byte {
        b'n' => b'\n',
        b't' => b'\t',
        b'r' => b'\r',
        b'b' => 8,
        b'f' => 12,
        b'v' => 11,
        b'e' => 27,
        other => other,
    }
}

fn is_octal(byte: u8) -> bool
    ensures { result ≡ is_octal byte }
{
    b'0' <= byte && byte <= b'7'
}

fn octal_goes_on(value: u8, count: u8, byte: u8) -> bool
    ensures { result ≡ octal_goes_on value count byte }
{
    is_octal(byte) && count < 3 && u32::from(value) * 8 + (u32::from(byte) - 48) < 256
}

fn read_plain(out: &mut Vec<u8>, byte: u8) -> Result<EscapeState, AllocError>
    ensures { IfOk result (λ next. (rest : List ℕ)
        → out.old.items ++ text_value Plain (byte ∷ rest) ≡ out.new.items ++ text_value next rest) }
{
    if byte == b'\\' {
        return Ok(EscapeState::Escaped);
    }
    out.push(byte)?;
    Ok(EscapeState::Plain)
}

fn read_escaped(out: &mut Vec<u8>, byte: u8) -> Result<EscapeState, AllocError>
    ensures { IfOk result (λ next. (rest : List ℕ)
        → out.old.items ++ text_value Escaped (byte ∷ rest)
        ≡ out.new.items ++ text_value next rest) }
{
    if is_octal(byte) {
        return Ok(EscapeState::Octal(byte - b'0', 1));
    }
    out.push(escaped_byte(byte))?;
    Ok(EscapeState::Plain)
}

fn read_octal(out: &mut Vec<u8>, value: u8, count: u8, byte: u8) -> Result<EscapeState, AllocError>
    ensures { IfOk result (λ next. (rest : List ℕ)
        → out.old.items ++ text_value (Octal value count) (byte ∷ rest)
        ≡ out.new.items ++ text_value next rest) }
{
    if octal_goes_on(value, count, byte) {
        return Ok(EscapeState::Octal(value * 8 + (byte - b'0'), count + 1));
    }
    out.push(value)?;
    read_plain(out, byte)
}

fn read_byte(out: &mut Vec<u8>, state: EscapeState, byte: u8) -> Result<EscapeState, AllocError>
    ensures { IfOk result (λ next. (rest : List ℕ)
        → out.old.items ++ text_value state (byte ∷ rest) ≡ out.new.items ++ text_value next rest) }
{
    match state {
        EscapeState::Plain => read_plain(out, byte),
        EscapeState::Escaped => read_escaped(out, byte),
        EscapeState::Octal(value, count) => read_octal(out, value, count, byte),
    }
}

/// The bytes that text between quotes stands for; `text` is what stands between them.
///
/// # Errors
/// Where a growth is refused.
#[tactic(auto, using(crate::proofs::Strings::plain_texts))]
pub fn text_bytes(alloc: Global, text: &[u8]) -> Result<Vec<u8>, AllocError>
    ensures { IfOk result (λ bytes. bytes.items ≡ text_value Plain text.now) }
{
    if !text.contains(&b'\\') {
        return Vec::from_slice(alloc, text);
    }
    let mut out = Vec::new(alloc);
    let mut state = EscapeState::Plain;
    for byte in text {
        state = read_byte(&mut out, state, *byte)?;
    }
    if let EscapeState::Octal(value, _) = state {
        out.push(value)?;
    }
    Ok(out)
}
