//! What is said of something that went wrong.
ghost use Rattle.std.specs.Prelude.{◌≡◌, ℕ, List, None, Some};
ghost use Rattle.kx_calls.specs.Out.{Copies};
ghost use Rattle.kx_calls.specs.declared.status.TheConstants.{EMPTY};

use kx_calls::out::copy;
use kx_calls::status::EMPTY;
use kx_calls::words::boxed;
use kx_sources::WordsHandle;
use std::alloc::Global;

/// Copies the lines where there is room for them, and tells their size.
#[unsafe(no_mangle)]
pub extern "C" fn xkc_words_text(
    alloc: Global,
    words: &mut WordsHandle,
    out: &mut [u8],
    size: &mut usize,
) -> u32
    ensures words { words.new.value ≡ words.old.value }
    ensures empty { words.old.value ≡ None
        → (result ≡ EMPTY) × ((out.new ≡ out.old) × (size.new ≡ size.old)) }
    ensures text { (lines : List ℕ) → words.old.value ≡ Some lines
        → Copies lines out.old out.new size.new result }
{
    let Some(boxed) = words.take(alloc) else {
        return EMPTY;
    };
    let status = copy(boxed.as_bytes(), out, size);
    words.put(boxed);
    status
}

/// Lets go of what the handle has.
#[unsafe(no_mangle)]
pub extern "C" fn xkc_words_end(alloc: Global, words: &mut WordsHandle)
    ensures { words.new.value ≡ None }
{
    words.end(alloc);
}
