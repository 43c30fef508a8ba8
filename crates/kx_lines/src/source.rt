//! The source at the front of what a session reads.
ghost use Rattle.std.specs.Prelude.{◌≡◌, ◌+◌, ◌≤◌, ◌⊎◌, ◌++◌, ◌∷◌, [], IfErr, IfOk, OnOk, drop, length, take, vec_len};
ghost use Rattle.kx_lines.specs.Input.{Came, FailsBehind, budget, coming};
ghost use Rattle.kx_lines.specs.Sources.{ReadsSource, is_mark};
ghost use Rattle.kx_lines.specs.declared.fault.ReplayFault.TheVariants.{Read};

use crate::fault::{ReplayFault, SessionFault};
use crate::input::Input;
use ks_core::Feed;
use kx_lex::Fault;
use std::alloc::Global;

/// The line after which a session's events stand.
const END_OF_SOURCE: &[u8] = b"%%";

/// A source, and whether lines of events may follow it.
#[derive(Drop)]
pub struct Source {
    pub text: Vec<u8>,
    pub has_lines: bool,
}

/// Whether the last line, which begins there, is the one after which events stand.
fn ends_in_mark(text: &Vec<u8>, line_start: usize) -> bool
    requires { line_start ≤ vec_len text.now }
    ensures { result ≡ is_mark (drop line_start text.now.items) }
{
    &text[line_start..] == END_OF_SOURCE
}

/// The source that ends where its last line begins.
fn cut(mut text: Vec<u8>, line_start: usize, has_lines: bool) -> Source
    requires { line_start ≤ vec_len text }
    ensures text { result.text.items ≡ take line_start text.items }
    ensures has_lines { result.has_lines ≡ has_lines }
{
    text.truncate(line_start);
    Source { text, has_lines }
}

fn push(text: &mut Vec<u8>, byte: u8) -> Result<(), SessionFault>
    ensures pushed { OnOk result (text.new.items ≡ text.old.items ++ byte ∷ []) }
    ensures memory { IfErr result (λ fault. fault ≡ SessionFault.Compile Fault.Memory) }
{
    match text.push(byte) {
        Ok(()) => Ok(()),
        Err(_) => Err(SessionFault::Compile(Fault::Memory)),
    }
}

/// The source: all before the first line `%%`, or all where there is none.
pub fn read_source<F: Feed>(
    alloc: Global,
    input: &mut Input,
    feed: &mut F,
) -> Result<Source, SessionFault>
    ensures source { IfOk result (λ source.
        ReadsSource (coming input.old (F.left feed.old)) (budget input.old)
        (coming input.new (F.left feed.new)) (budget input.new) source.text.items
        source.has_lines) }
    ensures counted { OnOk result (F.failures feed.new ≡ F.failures feed.old) }
    ensures taken { OnOk result (F.taken feed.new + input.new.allowance
        ≡ F.taken feed.old + input.old.allowance) }
    ensures few { IfOk result (λ source. length source.text.items ≤ budget input.old) }
    ensures fault { IfErr result (λ fault. (fault ≡ SessionFault.Compile Fault.Memory)
        ⊎ ((fault ≡ SessionFault.Replay Read)
        × FailsBehind F.left F.taken F.failures input.old feed.old feed.new)) }
{
    let mut text = Vec::new(alloc);
    let mut line_start = 0;
    loop {
        let Ok(byte) = input.next_byte(feed) else {
            return Err(SessionFault::Replay(ReplayFault::Read));
        };
        match byte {
            None if ends_in_mark(&text, line_start) => return Ok(cut(text, line_start, false)),
            None => {
                return Ok(Source {
                    text,
                    has_lines: false,
                });
            }
            Some(b'\n') if ends_in_mark(&text, line_start) => {
                return Ok(cut(text, line_start, true));
            }
            Some(b'\n') => {
                push(&mut text, b'\n')?;
                line_start = text.len();
            }
            Some(byte) => push(&mut text, byte)?,
        }
    }
}
