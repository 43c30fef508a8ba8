//! Keymaps from images, and back.
ghost use Rattle.std.specs.Prelude.{◌≡◌, ◌≢◌, ◌⊎◌, ℕ, List, IsSomeAnd, None, Some};
ghost use Rattle.kx_image.specs.Image.{IsImage};
ghost use Rattle.kx_print.specs.Printed.{printed};
ghost use Rattle.kx_tables.specs.Content.{Content};
ghost use Rattle.kx_calls.specs.Out.{Copies};
ghost use Rattle.kx_calls.specs.declared.status.TheConstants.{EMPTY, IMAGE, MEMORY, OK};

use kx_calls::keymap::{opened, print_into};
use kx_calls::out::copy;
use kx_calls::status::{EMPTY, IMAGE, MEMORY, OK};
use kx_handles::{KeymapHandle, OpenFault};
use std::alloc::Global;

/// Opens an image, whose bytes are copied, and puts the keymap in the place of what the handle has.
#[unsafe(no_mangle)]
pub extern "C" fn xkc_keymap_open(alloc: Global, keymap: &mut KeymapHandle, image: &[u8]) -> u32
    ensures opened { result ≡ OK
        → IsSomeAnd keymap.new.value (λ content. IsImage content image.now) }
    ensures refused { result ≢ OK → keymap.new ≡ keymap.old }
    ensures none { result ≡ IMAGE → (content : Content) → IsImage content image.now → ⊥ }
    ensures statuses { (result ≡ OK) ⊎ ((result ≡ MEMORY) ⊎ (result ≡ IMAGE)) }
{
    match opened(alloc, image) {
        Err(OpenFault::Memory) => MEMORY,
        Err(OpenFault::Image(_)) => IMAGE,
        Ok(opened) => {
            keymap.put(opened);
            OK
        }
    }
}

/// Copies the image where there is room for it, and tells its size.
#[unsafe(no_mangle)]
pub extern "C" fn xkc_keymap_image(
    alloc: Global,
    keymap: &mut KeymapHandle,
    out: &mut [u8],
    size: &mut usize,
) -> u32
    ensures keymap { keymap.new.value ≡ keymap.old.value }
    ensures empty { keymap.old.value ≡ None
        → (result ≡ EMPTY) × ((out.new ≡ out.old) × (size.new ≡ size.old)) }
    ensures image { (content : Content) → keymap.old.value ≡ Some content
        → (image : List ℕ) × IsImage content image × Copies image out.old out.new size.new result }
{
    let Some(tables) = keymap.take(alloc) else {
        return EMPTY;
    };
    let status = copy(tables.bytes(), out, size);
    keymap.put(tables);
    status
}

/// Copies the printed text where there is room for it, and tells its size.
#[unsafe(no_mangle)]
pub extern "C" fn xkc_keymap_print(
    alloc: Global,
    keymap: &mut KeymapHandle,
    out: &mut [u8],
    size: &mut usize,
) -> u32
    ensures keymap { keymap.new.value ≡ keymap.old.value }
    ensures empty { keymap.old.value ≡ None → result ≡ EMPTY }
    ensures nothing { (result ≡ EMPTY) ⊎ (result ≡ MEMORY)
        → (out.new ≡ out.old) × (size.new ≡ size.old) }
    ensures text { (content : Content) → keymap.old.value ≡ Some content
        → (result ≡ MEMORY) ⊎ Copies (printed content) out.old out.new size.new result }
{
    let Some(tables) = keymap.take(alloc) else {
        return EMPTY;
    };
    let status = print_into(alloc, &tables, out, size);
    keymap.put(tables);
    status
}

/// Lets go of what the handle has. Keyboards and followers over it go on.
#[unsafe(no_mangle)]
pub extern "C" fn xkc_keymap_end(alloc: Global, keymap: &mut KeymapHandle)
    ensures { keymap.new.value ≡ None }
{
    keymap.end(alloc);
}
