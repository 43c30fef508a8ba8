//! What is said of something that went wrong.
ghost use Rattle.std.specs.Prelude.{◌≡◌, IfOk};

use kx_sources::Words;
use std::alloc::{AllocError, Global};

/// Lines on the heap.
///
/// # Errors
/// Where a growth is refused.
pub fn boxed(alloc: Global, words: Words) -> Result<Box<Words>, AllocError>
    ensures { IfOk result (λ b. b.value ≡ words) }
{
    Ok(Box::new(alloc, words)?)
}
