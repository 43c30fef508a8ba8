//! The variables of the environment that were told.
ghost use Rattle.std.specs.Prelude.{◌≤◌, IfOk, length};

use crate::told::Told;
use std::alloc::{AllocError, Global};
use std::collections::BTreeMap;
use std::env::{Env, FillError};

/// Variables with their values.
#[derive(Drop)]
pub struct Variables {
    values: BTreeMap<String, String>,
}

impl Variables {
    /// None.
    pub fn new(alloc: Global) -> Variables {
        Variables {
            values: BTreeMap::new(alloc),
        }
    }

    /// Tells a variable that is set.
    ///
    /// # Errors
    /// Where a growth is refused.
    pub fn tell(&mut self, alloc: Global, name: &str, value: &str) -> Result<(), AllocError> {
        let name = String::from_str(alloc, name)?;
        let value = String::from_str(alloc, value)?;
        self.values.insert(name, value)?;
        Ok(())
    }
}

/// Copies a value to the start of a buffer, where it has room.
fn fill(value: &[u8], buffer: &mut [u8]) -> Result<usize, FillError>
    ensures { IfOk result (λ count. count ≤ length buffer.new) }
{
    if value.len() > buffer.len() {
        return Err(FillError::TooLong);
    }
    buffer[..value.len()].copy_from_slice(value);
    Ok(value.len())
}

impl Env for Told {
    /// A library has no arguments.
    fn arg(&self, _i: usize, _buf: &mut [u8]) -> Result<usize, FillError> {
        Err(FillError::NotPresent)
    }

    fn var(&self, name: &str, buf: &mut [u8]) -> Result<usize, FillError> {
        match self.variables().values.get(name) {
            Some(value) => fill(value.as_bytes(), buf),
            None => Err(FillError::NotPresent),
        }
    }

    fn var_at(&self, _i: usize, _buf: &mut [u8]) -> Result<usize, FillError> {
        Err(FillError::NotPresent)
    }
}
