//! Statements where they stand.
use kx_include::Place;
use kx_lex::At;
use kx_parse::Stated;

/// A statement, and where its section stands.
#[derive(Clone, Copy)]
pub struct Placed<'s> {
    pub place: Place,
    pub stated: &'s Stated,
}

impl<'s> Placed<'s> {
    ghost use Rattle.std.specs.Prelude.{◌≡◌};
    ghost use Rattle.kx_include.specs.IncludeFaults.{at};

    /// Where the statement stands.
    pub fn whole(&self) -> At
        ensures { result ≡ at self.now.place.file self.now.stated.now.span }
    {
        At {
            file: self.place.file,
            span: self.stated.span,
        }
    }
}
