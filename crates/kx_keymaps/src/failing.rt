//! What a task that ends early says.
use kx_explain::Texts;
use kx_failure::{Failure, Shown};
use kx_lex::Fault;
use kx_reach::read_file;
use kx_words::Includes;
use std::io;
use std::rt::Files as FileSystem;

/// Prints a failure's line, says on standard error what is wrong, and answers the failure's status, which stands where the line
/// can't be written.
pub fn fail(rt: &(impl Print + Eprint), failure: Failure) -> u8 {
    let status = failure.status();
    let _ = rt.eprint(format_args!("{}", failure.words()));
    let _ = rt.println(failure);
    status
}

/// The same where an image was to go to standard output: nothing else may stand there.
pub fn fail_aside(rt: &impl Eprint, failure: Failure) -> u8 {
    let status = failure.status();
    let _ = rt.eprint(format_args!("{}", failure.words()));
    let _ = rt.eprintln(failure);
    status
}

/// The failure of a file that was found and can't be read: it is tried again, to see why.
pub(crate) fn unusable<'a>(rt: &(impl FileSystem + AllocGlobal), path: String) -> Failure<'a> {
    let kind = match read_file(rt, path.as_str()) {
        Ok(_) => io::ErrorKind::Other,
        Err(fault) => fault.kind(),
    };
    Failure::Found(path, kind)
}

/// Shows a fault on standard error, in the text in which it stands; of a file that isn't there also the folders in which it
/// was looked for. Lack of memory stands in none.
pub fn show_fault(
    rt: &(impl Eprint + AllocGlobal),
    fault: Fault,
    texts: Texts,
    includes: &Includes,
) {
    if fault == Fault::Memory {
        return;
    }
    let _ = rt.eprint(Shown::of(rt.alloc(), fault, texts));
    if matches!(fault, Fault::FileMissing(_)) {
        for folder in includes.folders.as_slice() {
            let _ = rt.eprintln(format_args!("looked for in {folder}"));
        }
    }
}
