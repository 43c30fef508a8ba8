//! Images of sources, and their printed texts. Worked ones stand in the files of cases.
use ks_core::{Lent, NameTable};
use kx_image::{View, upgrade};
use kx_print::print;
use kx_tool::{Files, compile};
use std::alloc::Global;
use std::process::Abort;
use std::test::Fail;

/// The image of a source that includes nothing.
pub fn image_of(alloc: Global, source: &[u8], names: &NameTable) -> Result<Vec<u8>, Fail> {
    let (image, _) = compile(alloc, source, &Files::new(alloc), names)?;
    Ok(image)
}

/// The printed text of an image.
pub fn text_of(alloc: Global, image: &[u8]) -> Result<Vec<u8>, Fail> {
    let view = View::open(image)?;
    let mut out = Lent::new(Vec::new(alloc));
    print(&view, &mut out)?;
    Ok(out.device)
}

/// The image of one key in version 1: header, type, key, group, cell, keysym, names.
const FIRST_VERSION: &[&[u8]] = &[
    b"KXI\n\x01\0\x01\0\x01\0\x01\0\0\0\0\0\x01\0\0\0\x01\0\0\0\x0a\0\0\0",
    b"\0\x01\0\0\x09\0\0\0\0\0\0\0\0\0\0\0",
    b"\x26\0\0\0\0\x01\x01\0\x09\0\0\0\0\0\0\0",
    b"\0\0\0\0\0\0\0\0",
    b"\x01\0\0\0\0\0\0\0\0\0\0\0",
    b"\x61\0\0\0",
    b"ONE_LEVELA",
];

/// That an image prints, and that its text compiles to what it is upgraded to.
fn check_upgraded(rt: &(impl Abort + AllocGlobal), image: &[u8]) -> Result<(), Fail> {
    let printed = text_of(rt.alloc(), image)?;
    let again = image_of(rt.alloc(), printed.as_slice(), &NameTable::builtin())?;
    let mut newer = Lent::new(Vec::new(rt.alloc()));
    upgrade(image, &mut newer)?;
    let printed_again = text_of(rt.alloc(), newer.device.as_slice())?;
    assert!(rt; printed.as_slice() == printed_again.as_slice());
    assert!(rt; again.as_slice() == newer.device.as_slice());
    Ok(())
}

#[test]
fn images_of_the_first_version_print_as_those_of_the_second(rt: HostRuntime) -> Result<(), Fail> {
    let image = FIRST_VERSION.concat(rt.alloc())?;
    check_upgraded(&rt, image.as_slice())
}
