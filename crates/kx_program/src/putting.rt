//! Where an image is written.
use kx_failure::Failure;
use kx_files::{Put, PutFault};
use kx_keymaps::refuse_words;
use kx_words::is_output;
use std::io;
use std::io::Write;
use std::rt::Files as FileSystem;

fn write_output<'a>(rt: &impl Print, bytes: &[u8]) -> Result<(), Failure<'a>> {
    let mut out = io::writer(rt);
    match out.write_all(bytes) {
        Ok(()) => Ok(()),
        Err(_) => Err(Failure::Write),
    }
}

/// Writes an image, whole or not at all, and answers the status to end with: a file that is read is left as it is, and standard
/// error says so.
pub(crate) fn put_image<'a>(
    rt: &(impl FileSystem + Print + Eprint + AllocGlobal),
    put: Put<'a, '_>,
    bytes: &[u8],
) -> Result<u8, Failure<'a>> {
    let out = put.out;
    if is_output(out) {
        write_output(rt, bytes)?;
        return Ok(0);
    }
    match put.write(rt, bytes) {
        Ok(()) => Ok(0),
        Err(PutFault::Read) => Ok(refuse_words(
            rt,
            format_args!("the file '{out}' is read, and can't be OUT too"),
        )),
        Err(PutFault::Write(fault)) => Err(Failure::of_file(&fault, out)),
    }
}
