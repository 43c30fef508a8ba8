//! Answers to lines of events.
ghost use Rattle.std.specs.Prelude.{◌≡◌, ◌+◌, ◌≤◌, ◌⊎◌, ◌∷◌, [], ℕ, List, true, false, IfErr, IfOk, IfNone, IfSome, OnErr, OnOk};
ghost use Rattle.std.specs.Io.KnownBytes.{IsAtEnd};
ghost use Rattle.ks_core.specs.BufferedOut.{Finishes, Writes, nothing_gathered};
ghost use Rattle.kx_tables.specs.Keymap.{keymap_of};
ghost use Rattle.kx_run.specs.Replies.{world_after};
ghost use Rattle.kx_lines.specs.Answer.{answers_from};
ghost use Rattle.kx_lines.specs.EventLines.{KeepsLine, events_in, is_well_formed};
ghost use Rattle.kx_lines.specs.Input.{Came, FailsBehind, FailsToRead, IsWithin, budget, coming};
ghost use Rattle.kx_tool.specs.Putting.{FailsAt, PutsOrWaits, StopsAt};
ghost use Rattle.kx_tool.specs.Replay.{Replays, ReplaysImage, RefusesImage, known_lines};
ghost use Rattle.kx_lines.specs.declared.fault.ReplayFault.TheVariants.{Read, Write};
ghost use Rattle.kx_lines.specs.declared.input.TheConstants.{MOST_BYTES};

use ks_core::{BufferedOut, Feed, NameTable, Out};
use kx_image::View;
use kx_lines::answer::write_answer;
use kx_lines::event::{Line, Said};
use kx_lines::fault::ReplayFault;
use kx_lines::input::Input;
use kx_lines::tails::Tails;
use kx_run::Player;
use kx_tables::Tables;
use std::alloc::Global;
use std::mem;

/// Answers a line, if it is an event; whether it is empty or an event.
fn answer_line<T: Tables + Drop, O: Out>(
    player: &mut Player<T>,
    buffered: &mut BufferedOut,
    out: &mut O,
    names: &NameTable,
    tails: &mut Tails,
    line: &Line,
) -> bool
    ensures formed { (text : List ℕ) → KeepsLine line.now text → result ≡ is_well_formed text }
    ensures told { (text : List ℕ) → KeepsLine line.now text
        → Writes O.written O.failures out.old buffered.old out.new buffered.new
        (answers_from player.old.content names.now player.old.world (events_in (text ∷ []))) }
    ensures world { (text : List ℕ) → KeepsLine line.now text
        → player.new ≡ record player.old {
          world = world_after (keymap_of player.old.content)
              player.old.world (events_in (text ∷ []));
        } }
    ensures still { result ≡ false → (buffered.new ≡ buffered.old) × (out.new ≡ out.old) }
{
    match line.said() {
        Said::Nothing => true,
        Said::Other => false,
        Said::Event(event) => {
            let reply = player.event(event.code, event.direction);
            write_answer(buffered, out, player.tables(), names, tails, event, &reply);
            true
        }
    }
}

/// Puts what waits.
fn put<O: Out>(buffered: BufferedOut, out: &mut O) -> Result<(), ReplayFault>
    ensures put { Finishes O.written O.failures out.old buffered out.new result }
    ensures fault { IfErr result (λ fault. fault ≡ Write) }
{
    match buffered.finish(out) {
        Ok(()) => Ok(()),
        Err(_) => Err(ReplayFault::Write),
    }
}

/// Puts what waits, so that nothing waits any more.
fn put_waiting<O: Out>(buffered: &mut BufferedOut, out: &mut O) -> Result<(), ReplayFault>
    ensures put { Finishes O.written O.failures out.old buffered.old out.new result }
    ensures fresh { buffered.new ≡ nothing_gathered }
    ensures fault { IfErr result (λ fault. fault ≡ Write) }
{
    put(mem::replace(buffered, BufferedOut::new()), out)
}

/// Answers a whole line, which has that number; at one that is neither empty nor an event what waits is put.
fn finish_line<T: Tables + Drop, O: Out>(
    player: &mut Player<T>,
    buffered: &mut BufferedOut,
    out: &mut O,
    names: &NameTable,
    tails: &mut Tails,
    line: &Line,
    number: u64,
) -> Result<(), ReplayFault>
    ensures formed { OnOk result ((text : List ℕ) → KeepsLine line.now text
        → true ≡ is_well_formed text) }
    ensures told { OnOk result ((text : List ℕ) → KeepsLine line.now text
        → Writes O.written O.failures out.old buffered.old out.new buffered.new
        (answers_from player.old.content names.now player.old.world (events_in (text ∷ [])))) }
    ensures world { OnOk result ((text : List ℕ) → KeepsLine line.now text
        → player.new ≡ record player.old {
          world = world_after (keymap_of player.old.content)
              player.old.world (events_in (text ∷ []));
        }) }
    ensures stopped { IfErr result
        (StopsAt O.written O.failures line.now number out.old buffered.old out.new) }
{
    if answer_line(player, buffered, out, names, tails, line) {
        return Ok(());
    }
    match put_waiting(buffered, out) {
        Ok(()) => Err(ReplayFault::Line(number)),
        Err(fault) => Err(fault),
    }
}

/// The next byte, which is taken from the reader where none is kept; by then everything written is put.
fn take_byte<F: Feed>(
    input: &mut Input,
    feed: &mut F,
    _told: &BufferedOut,
) -> Result<Option<u8>, ReplayFault>
    requires { input.old.bytes ≡ [] → _told.now ≡ nothing_gathered }
    ensures some { IfOk result (λ byte.
        IfSome byte (λ b. Came (coming input.old (F.left feed.old)) (budget input.old)
        (coming input.new (F.left feed.new)) (budget input.new) (b ∷ []))) }
    ensures none { IfOk result (λ byte.
        IfNone byte (IsAtEnd (coming input.old (F.left feed.old)))) }
    ensures counted { OnOk result (F.failures feed.new ≡ F.failures feed.old) }
    ensures taken { OnOk result (F.taken feed.new + input.new.allowance
        ≡ F.taken feed.old + input.old.allowance) }
    ensures empty { OnErr result (input.old.bytes ≡ []) }
    ensures failed { IfErr result (λ fault. (fault ≡ Read)
        × FailsBehind F.left F.taken F.failures input.old feed.old feed.new) }
{
    match input.next_byte(feed) {
        Ok(byte) => Ok(byte),
        Err(_) => Err(ReplayFault::Read),
    }
}

/// The next byte. What waits is put before more is taken from the reader.
fn next_byte<F: Feed, O: Out>(
    input: &mut Input,
    feed: &mut F,
    buffered: &mut BufferedOut,
    out: &mut O,
) -> Result<Option<u8>, ReplayFault>
    ensures some { IfOk result (λ byte.
        IfSome byte (λ b. Came (coming input.old (F.left feed.old)) (budget input.old)
        (coming input.new (F.left feed.new)) (budget input.new) (b ∷ []))) }
    ensures none { IfOk result (λ byte.
        IfNone byte (IsAtEnd (coming input.old (F.left feed.old)))) }
    ensures counted { OnOk result (F.failures feed.new ≡ F.failures feed.old) }
    ensures taken { OnOk result (F.taken feed.new + input.new.allowance
        ≡ F.taken feed.old + input.old.allowance) }
    ensures put { OnOk result (PutsOrWaits O.written O.failures out.old buffered.old out.new
        buffered.new) }
    ensures failed { IfErr result (FailsAt O.written O.failures
        (FailsBehind F.left F.taken F.failures input.old feed.old feed.new) out.old buffered.old
        out.new) }
{
    if input.is_empty() {
        put_waiting(buffered, out)?;
    }
    take_byte(input, feed, buffered)
}

/// Answers event lines; what is answered is put before more is taken from the reader.
pub fn answer_lines<F: Feed, O: Out, T: Tables + Drop>(
    alloc: Global,
    input: &mut Input,
    feed: &mut F,
    tables: T,
    names: &NameTable,
    out: &mut O,
) -> Result<(), ReplayFault>
    requires { budget input.old ≤ MOST_BYTES }
    ensures answers { Replays O.written O.failures (T.content tables) names.now
        (known_lines (coming input.old (F.left feed.old))) out.old out.new result }
    ensures read { IfErr result (λ fault. fault ≡ Read
        → FailsBehind F.left F.taken F.failures input.old feed.old feed.new) }
    ensures whole { OnOk result (IsWithin (coming input.old (F.left feed.old)) (budget input.old)) }
    ensures few { OnOk result (F.taken feed.new ≤ F.taken feed.old + input.old.allowance) }
{
    let Ok(mut player) = Player::start(alloc, tables) else {
        return Err(ReplayFault::Memory);
    };
    let mut buffered = BufferedOut::new();
    let mut tails = Tails::new();
    let mut line = Line::new();
    let mut number: u64 = 1;
    'lines: loop {
        input.fill_line(&mut line);
        let byte = match next_byte(input, feed, &mut buffered, out) {
            Ok(byte) => byte,
            Err(fault) => return Err(fault),
        };
        match byte {
            None => {
                return match finish_line(
                    &mut player,
                    &mut buffered,
                    out,
                    names,
                    &mut tails,
                    &line,
                    number,
                ) {
                    Ok(()) => put(buffered, out),
                    Err(fault) => Err(fault),
                };
            }
            Some(b'\n') => {
                match finish_line(
                    &mut player,
                    &mut buffered,
                    out,
                    names,
                    &mut tails,
                    &line,
                    number,
                ) {
                    Ok(()) => {}
                    Err(fault) => return Err(fault),
                }
                line.clear();
                number += 1;
            }
            Some(byte) => line.push(byte),
        }
    }
}

/// Answers the event lines that a reader gives, one line for each event, from a keymap's image of either version.
///
/// # Errors
/// `Image` where the bytes are no image; then nothing was written. `Line` at the first line that is neither empty nor
/// an event, after the answers to the lines before it. `Read` and `Write` where a device fails, after a beginning of
/// the answers; `Read` too where the reader gives more than `MOST_BYTES`. `Memory`, before anything is read.
pub fn replay<F: Feed, O: Out>(
    alloc: Global,
    feed: &mut F,
    image: &[u8],
    names: &NameTable,
    out: &mut O,
) -> Result<(), ReplayFault>
    ensures answers { ReplaysImage O.written O.failures image.now names.now
        (known_lines (F.left feed.old)) out.old out.new result
        ⊎ RefusesImage image.now out.old out.new result }
    ensures read { IfErr result (λ fault. fault ≡ Read
        → FailsToRead F.left F.taken F.failures feed.old feed.new MOST_BYTES) }
    ensures whole { OnOk result (IsWithin (F.left feed.old) MOST_BYTES) }
    ensures few { OnOk result (F.taken feed.new ≤ F.taken feed.old + MOST_BYTES) }
{
    match View::open(image) {
        Ok(view) => answer_lines(alloc, &mut Input::new(), feed, view, names, out),
        Err(fault) => Err(ReplayFault::Image(fault)),
    }
}
