//! A section for each kind.
ghost use Rattle.std.specs.Prelude.{◌≡◌, None};
ghost use Rattle.kx_tree.specs.declared.tree.Kind.{Kind};
ghost use Rattle.kx_include.specs.MapIndex.{number_in, with_map};

use kx_parse::Kind;

/// Of each kind the number of one of a text's sections, where one is known.
#[derive(Clone, Copy)]
pub(crate) struct KindMaps {
    keycodes: Option<usize>,
    types: Option<usize>,
    compat: Option<usize>,
    symbols: Option<usize>,
    geometry: Option<usize>,
}

impl KindMaps {
    /// None is known of any kind.
    pub(crate) fn new() -> KindMaps
        ensures { (kind : Kind) → number_in kind result ≡ None }
    {
        KindMaps {
            keycodes: None,
            types: None,
            compat: None,
            symbols: None,
            geometry: None,
        }
    }

    /// The number for a kind.
    pub(crate) fn number(self, kind: Kind) -> Option<usize>
        ensures { result ≡ number_in kind self }
    {
        match kind {
            Kind::Keycodes => self.keycodes,
            Kind::Types => self.types,
            Kind::Compat => self.compat,
            Kind::Symbols => self.symbols,
            Kind::Geometry => self.geometry,
        }
    }

    /// The same with the section of a number, where none of its kind was known.
    pub(crate) fn with(self, kind: Kind, number: usize) -> KindMaps
        ensures { result ≡ with_map self kind number }
    {
        let added = Some(number);
        match kind {
            Kind::Keycodes => KindMaps {
                keycodes: self.keycodes.or(added),
                ..self
            },
            Kind::Types => KindMaps {
                types: self.types.or(added),
                ..self
            },
            Kind::Compat => KindMaps {
                compat: self.compat.or(added),
                ..self
            },
            Kind::Symbols => KindMaps {
                symbols: self.symbols.or(added),
                ..self
            },
            Kind::Geometry => KindMaps {
                geometry: self.geometry.or(added),
                ..self
            },
        }
    }
}
