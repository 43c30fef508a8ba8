//! Why a case, or a file of cases, came to no end.
use kx_lex::Fault;
use std::alloc::{AllocError, AllocFailed};
use std::{fmt, io};
use thiserror::Error;

/// Why nothing is shown of a case, or a file of cases isn't run to its end.
#[derive(Debug, Drop, Error)]
pub enum Trouble {
    /// The source of the case has this fault, which is then what the case shows.
    #[error("{0}")]
    Fault(Fault),
    #[error("no memory is left")]
    Memory,
    /// The line of this number, counted from 1, has a word that is no word of these cases.
    #[error("line {0}: this is no line of a file of cases")]
    Line(usize),
    #[error("{0}")]
    Device(io::Error),
}

impl From<AllocError> for Trouble {
    fn from(_refused: AllocError) -> Trouble {
        Trouble::Memory
    }
}

impl<T: Drop> From<AllocFailed<T>> for Trouble {
    fn from(_refused: AllocFailed<T>) -> Trouble {
        Trouble::Memory
    }
}

impl From<fmt::Error> for Trouble {
    fn from(_refused: fmt::Error) -> Trouble {
        Trouble::Memory
    }
}

impl From<Fault> for Trouble {
    fn from(fault: Fault) -> Trouble {
        Trouble::Fault(fault)
    }
}

impl From<io::Error> for Trouble {
    fn from(error: io::Error) -> Trouble {
        Trouble::Device(error)
    }
}
