//! Sources with the files that their includes reach.
ghost use Rattle.std.specs.Prelude.{◌≡◌, None, Some};
ghost use Rattle.kx_sources.specs.Given.{Given};
ghost use Rattle.kx_calls.specs.Out.{Copies};
ghost use Rattle.kx_calls.specs.declared.status.TheConstants.{EMPTY};

use kx_calls::out::copy;
use kx_calls::status::EMPTY;
use kx_sources::SourceHandle;
use std::alloc::Global;

/// Copies the source's text where there is room for it, and tells its size.
#[unsafe(no_mangle)]
pub extern "C" fn xkc_source_bytes(
    alloc: Global,
    source: &mut SourceHandle,
    out: &mut [u8],
    size: &mut usize,
) -> u32
    ensures source { source.new.value ≡ source.old.value }
    ensures empty { source.old.value ≡ None
        → (result ≡ EMPTY) × ((out.new ≡ out.old) × (size.new ≡ size.old)) }
    ensures text { (given : Given) → source.old.value ≡ Some given
        → Copies given.text out.old out.new size.new result }
{
    let Some(held) = source.take(alloc) else {
        return EMPTY;
    };
    let status = copy(held.text(), out, size);
    source.put(held);
    status
}

/// Lets go of what the handle has.
#[unsafe(no_mangle)]
pub extern "C" fn xkc_source_end(alloc: Global, source: &mut SourceHandle)
    ensures { source.new.value ≡ None }
{
    source.end(alloc);
}
