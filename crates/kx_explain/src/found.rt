//! What stands at the place of a fault.
use crate::quotes::quoted;
use kx_lex::Span;
use kx_reach::bytes_in;
use std::fmt;
use std::fmt::{Formatter, Write};

/// What stands in a range of a text.
#[derive(Clone, Copy)]
pub(crate) struct Found<'a> {
    pub text: &'a [u8],
    pub span: Span,
}

impl fmt::Display for Found<'_> {
    fn fmt<W: Write>(&self, f: &mut Formatter<W>) -> fmt::Result {
        if self.span.start >= self.span.stop {
            return f.write_str("the end of the text");
        }
        let words = quoted(bytes_in(self.text, self.span));
        write!(f, "{words}")
    }
}
