//! A source and lines of events, read from one reader.
ghost use Rattle.std.specs.Prelude.{◌≡◌, ◌+◌, ◌≤◌, IfErr, IfSome, MatchResult, OnOk};
ghost use Rattle.kx_lines.specs.Input.{FailsToRead, IsWithin};
ghost use Rattle.kx_tool.specs.Quiet.{BlamesWriter, KeepsQuiet, RefusesSource};
ghost use Rattle.kx_tool.specs.Replay.{AnswersSession};
ghost use Rattle.kx_lines.specs.declared.fault.ReplayFault.TheVariants.{Read};
ghost use Rattle.kx_lines.specs.declared.input.TheConstants.{MOST_BYTES};

use crate::replaying::answer_lines;
use ks_core::{Feed, NameTable, Out};
use kx_include::Files;
use kx_lines::fault::SessionFault;
use kx_lines::input::Input;
use kx_lines::source::read_source;
use kx_source::tables;
use std::alloc::Global;

/// Reads a source up to a line `%%`, makes its tables, and answers from them the event lines after that line, one line for
/// each event. Without such a line the source is all that the reader gives.
///
/// # Errors
/// `Compile` where the source is refused; then nothing was written. `Replay` with `Line` at the first line that is
/// neither empty nor an event, after the answers to the lines before it; with `Read` and `Write` where a device fails,
/// after a beginning of the answers, and with `Read` too where the reader gives more than `MOST_BYTES`; with `Memory`.
pub fn session<F: Feed, O: Out>(
    alloc: Global,
    feed: &mut F,
    files: &Files,
    names: &NameTable,
    out: &mut O,
) -> Result<(), SessionFault>
    ensures quiet { IfErr result (KeepsQuiet out.old out.new) }
    ensures refused { IfErr result (RefusesSource files.now names.now) }
    ensures written { MatchResult result (λ _. O.failures out.new ≡ O.failures out.old)
        (BlamesWriter (O.failures out.old) (O.failures out.new)) }
    ensures whole { OnOk result (IsWithin (F.left feed.old) MOST_BYTES) }
    ensures few { OnOk result (F.taken feed.new ≤ F.taken feed.old + MOST_BYTES) }
    ensures answers { IfSome (F.left feed.old) (λ text.
        AnswersSession O.written O.failures text files.now names.now out.old out.new result) }
    ensures read { IfErr result (λ fault. fault ≡ SessionFault.Replay Read
        → FailsToRead F.left F.taken F.failures feed.old feed.new MOST_BYTES) }
{
    let mut input = Input::new();
    let source = read_source(alloc, &mut input, feed)?;
    let tables = match tables(alloc, source.text.as_slice(), files, names) {
        Ok((tables, _)) => tables,
        Err(fault) => return Err(SessionFault::Compile(fault)),
    };
    if !source.has_lines {
        return Ok(());
    }
    match answer_lines(alloc, &mut input, feed, tables, names, out) {
        Ok(()) => Ok(()),
        Err(fault) => Err(SessionFault::Replay(fault)),
    }
}
