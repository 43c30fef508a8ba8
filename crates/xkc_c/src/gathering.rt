//! Sources whose files C reads: a step says which path is looked for, and C tells what is there.
ghost use Rattle.std.specs.Prelude.{◌≡◌, ◌≢◌, ◌⊎◌, IfSome, IsSomeAnd, None, Some};
ghost use Rattle.kx_calls.specs.declared.status.TheConstants.{ASKS, EMPTY, FILE, MEMORY, OK, ROOM, RULES};

use kx_calls::files::XkcFile;
use kx_calls::folders::{XkcAsked, XkcFolder};
use kx_calls::gathering::{Halt, XkcFound, begun_names, begun_text, passed, stepped, tell};
use kx_calls::out::copy;
use kx_calls::status::{ASKS, EMPTY, FILE, MEMORY, OK, ROOM, RULES};
use kx_sources::{GatheringHandle, SourceHandle, WordsHandle};
use std::alloc::Global;

/// Begins a source by its text.
#[unsafe(no_mangle)]
pub extern "C" fn xkc_gathering_text(
    alloc: Global,
    gathering: &mut GatheringHandle,
    text: &[u8],
    folders: &[XkcFolder<'_>],
    words: &mut WordsHandle,
) -> u32
    ensures begun { result ≡ OK → gathering.new.value ≡ Some (Some text.now) }
    ensures refused { result ≢ OK → gathering.new ≡ gathering.old }
    ensures words { result ≢ FILE → words.new ≡ words.old }
    ensures statuses { (result ≡ OK) ⊎ ((result ≡ MEMORY) ⊎ (result ≡ FILE)) }
{
    match begun_text(alloc, text, folders) {
        Ok(begun) => {
            gathering.put(begun);
            OK
        }
        Err(fault) => passed(alloc, fault, words),
    }
}

/// Begins the source of names.
#[unsafe(no_mangle)]
pub extern "C" fn xkc_gathering_names(
    alloc: Global,
    gathering: &mut GatheringHandle,
    asked: &XkcAsked<'_>,
    variables: &[XkcFile<'_>],
    folders: &[XkcFolder<'_>],
    words: &mut WordsHandle,
) -> u32
    ensures begun { result ≡ OK → gathering.new.value ≡ Some None }
    ensures refused { result ≢ OK → gathering.new ≡ gathering.old }
    ensures words { result ≢ FILE → words.new ≡ words.old }
    ensures statuses { (result ≡ OK) ⊎ ((result ≡ MEMORY) ⊎ (result ≡ FILE)) }
{
    match begun_names(alloc, asked, variables, folders) {
        Ok(begun) => {
            gathering.put(begun);
            OK
        }
        Err(fault) => passed(alloc, fault, words),
    }
}

/// Makes the source, or copies the path that is looked for.
#[unsafe(no_mangle)]
pub extern "C" fn xkc_gathering_step(
    alloc: Global,
    gathering: &mut GatheringHandle,
    source: &mut SourceHandle,
    words: &mut WordsHandle,
    out: &mut [u8],
    size: &mut usize,
) -> u32
    ensures gathering { gathering.new.value ≡ gathering.old.value }
    ensures empty { gathering.old.value ≡ None → result ≡ EMPTY }
    ensures made { result ≡ OK → IsSomeAnd source.new.value (λ given.
        IfSome gathering.old.value (λ begun. IfSome begun (λ text. given.text ≡ text))) }
    ensures refused { result ≢ OK → source.new ≡ source.old }
{
    let Some(mut held) = gathering.take(alloc) else {
        return EMPTY;
    };
    let status = match stepped(alloc, &mut held) {
        Ok((made, said)) => {
            source.put(made);
            words.put(said);
            OK
        }
        Err(Halt::Memory) => MEMORY,
        Err(Halt::Asks(path)) => match copy(path.as_bytes(), out, size) {
            OK => ASKS,
            _ => ROOM,
        },
        Err(Halt::File(said)) => {
            words.put(said);
            FILE
        }
        Err(Halt::Rules(said)) => {
            words.put(said);
            RULES
        }
    };
    gathering.put(held);
    status
}

/// Tells what is at a path.
#[unsafe(no_mangle)]
pub extern "C" fn xkc_gathering_tell(
    alloc: Global,
    gathering: &mut GatheringHandle,
    found: &XkcFound<'_>,
) -> u32
    ensures gathering { gathering.new.value ≡ gathering.old.value }
    ensures empty { gathering.old.value ≡ None → result ≡ EMPTY }
{
    let Some(mut held) = gathering.take(alloc) else {
        return EMPTY;
    };
    let outcome = tell(alloc, &mut held, found);
    gathering.put(held);
    match outcome {
        Ok(()) => OK,
        Err(_) => MEMORY,
    }
}

/// Lets go of what the handle has.
#[unsafe(no_mangle)]
pub extern "C" fn xkc_gathering_end(alloc: Global, gathering: &mut GatheringHandle)
    ensures { gathering.new.value ≡ None }
{
    gathering.end(alloc);
}
