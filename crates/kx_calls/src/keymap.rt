//! Keymaps from images, and back.
ghost use Rattle.std.specs.Prelude.{◌≡◌, ◌⊎◌, IfErr, IfOk};
ghost use Rattle.kx_image.specs.Image.{IsImage};
ghost use Rattle.kx_print.specs.Printed.{printed};
ghost use Rattle.kx_handles.specs.Open.{IsRefused};
ghost use Rattle.kx_calls.specs.Out.{Copies};
ghost use Rattle.kx_calls.specs.declared.status.TheConstants.{MEMORY};

use crate::out::copy;
use crate::status::MEMORY;
use ks_core::Lent;
use kx_handles::{OpenFault, SharedTables};
use kx_print::print;
use std::alloc::Global;

/// The tables of an image on the heap.
///
/// # Errors
/// Where the bytes are no image, or no memory is left.
pub fn opened(alloc: Global, image: &[u8]) -> Result<Box<SharedTables>, OpenFault>
    ensures opened { IfOk result (λ b. IsImage b.value image.now) }
    ensures refused { IfErr result (IsRefused image.now) }
{
    let Ok(bytes) = image.to_vec(alloc) else {
        return Err(OpenFault::Memory);
    };
    let tables = SharedTables::open(alloc, bytes)?;
    match Box::new(alloc, tables) {
        Err(_) => Err(OpenFault::Memory),
        Ok(boxed) => Ok(boxed),
    }
}

/// Copies the printed text of tables where there is room for it, and tells its size.
pub fn print_into(alloc: Global, tables: &SharedTables, out: &mut [u8], size: &mut usize) -> u32
    ensures memory { result ≡ MEMORY → (out.new ≡ out.old) × (size.new ≡ size.old) }
    ensures text { (result ≡ MEMORY) ⊎ Copies (printed tables.now) out.old out.new size.new result }
{
    let mut text = Lent::new(Vec::new(alloc));
    match print(tables, &mut text) {
        Err(_) => MEMORY,
        Ok(()) => copy(text.device.as_slice(), out, size),
    }
}
