//! Names of keys, as aliases and statements have them.
ghost use Rattle.std.specs.Prelude.{◌≡◌, IfErr, IfOk};
ghost use Rattle.kx_lex.specs.declared.fault.Fault.TheVariants.{Memory};
ghost use Rattle.kx_basics.specs.KeyNames.{IsKeyName};

use kx_lex::Fault;
use std::alloc::Global;
use std::marker::Model;

/// The name that an alias stands for; seen as its bytes.
#[derive(Drop)]
pub struct AliasTarget {
    bytes: Vec<u8>,
}

impl Model for AliasTarget {
    ghost use Rattle.std.specs.Prelude.{List, ℕ};
    ghost use Rattle.kx_basics.specs.KeyNames.{IsKeyName};

    ghost Value = { List ℕ };

    ghost view = { λ n. n.bytes.items };

    ghost invariant = { λ n. IsKeyName n.bytes.items };
}

impl AliasTarget {
    pub(crate) fn of(alloc: Global, name: &[u8]) -> Result<AliasTarget, Fault>
        requires { IsKeyName name.now }
        ensures value { IfOk result (λ n. n ≡ name.now) }
        ensures err { IfErr result (λ e. e ≡ Memory) }
    {
        let bytes = Vec::from_slice(alloc, name)?;
        Ok(AliasTarget { bytes })
    }

    pub(crate) fn as_slice(&self) -> &[u8]
        ensures value { result.now ≡ self.now }
        ensures valid { IsKeyName result.now }
    {
        self.bytes.as_slice()
    }
}

/// The name of a key, lent by its statement; seen as its bytes.
#[derive(Drop)]
pub struct LentName<'l> {
    bytes: &'l [u8],
}

impl<'l> Model for LentName<'l> {
    ghost use Rattle.std.specs.Prelude.{List, ℕ};
    ghost use Rattle.kx_basics.specs.KeyNames.{IsKeyName};

    ghost Value = { List ℕ };

    ghost view = { λ n. n.bytes.now };

    ghost invariant = { λ n. IsKeyName n.bytes.now };
}

impl<'l> LentName<'l> {
    pub(crate) fn of(name: &'l [u8]) -> LentName<'l>
        requires { IsKeyName name.now }
        ensures { result ≡ name.now }
    {
        LentName { bytes: name }
    }

    pub(crate) fn as_slice(&self) -> &'l [u8]
        ensures value { result.now ≡ self.now }
        ensures valid { IsKeyName result.now }
    {
        self.bytes
    }
}
