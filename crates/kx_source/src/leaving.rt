//! What becomes of what was read of a source.
use std::mem;

/// What is done with what was read once the tables stand.
pub(crate) trait Ending {
    fn end<T: Drop>(read: T);
}

/// It is given back.
pub(crate) struct GivenBack;

/// It is left to the system, for a program that ends soon after. To give back each list by itself takes a tenth of a compile.
pub(crate) struct Left;

impl Ending for GivenBack {
    fn end<T: Drop>(read: T) {
        mem::drop(read);
    }
}

impl Ending for Left {
    fn end<T: Drop>(read: T) {
        mem::forget(read);
    }
}
