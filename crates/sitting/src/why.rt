// What is wrong with a line.
use console::misread::Misread;
use std::alloc::{AllocError, AllocFailed};
use std::{fmt, io};
use terms::refusal::Refusal;
use thiserror::Error;

#[derive(Clone, Copy, Debug)]
pub enum Why {
    Misread(Misread),
    Refused(Refusal),
    // No line says what the file is.
    NoFileLine,
    // A sheet cannot be printed.
    Output,
}

// The number of a line, from 1, and what is wrong with it.
#[derive(Clone, Copy, Debug, Error)]
#[error("line {line}: {why}")]
pub struct Wrong {
    pub line: usize,
    pub why: Why,
}

// By hand, since a message that is derived cannot show a refusal beside its number.
impl fmt::Display for Why {
    fn fmt<W: fmt::Write>(&self, f: &mut fmt::Formatter<W>) -> fmt::Result {
        match self {
            Why::Misread(misread) => write!(f, "{misread}"),
            Why::Refused(refusal) => {
                let code = u8::from(*refusal);
                write!(f, "refused {code} ({refusal})")
            }
            Why::NoFileLine => f.write_str(
                "a line file KIND CURRENCY CYCLE ORIGIN DATE NUMBER is wanted",
            ),
            Why::Output => f.write_str("it cannot be printed"),
        }
    }
}

impl From<Misread> for Why {
    fn from(misread: Misread) -> Why {
        Why::Misread(misread)
    }
}

impl From<Refusal> for Why {
    fn from(refusal: Refusal) -> Why {
        Why::Refused(refusal)
    }
}

impl From<AllocError> for Why {
    fn from(error: AllocError) -> Why {
        Why::Misread(error.into())
    }
}

impl<T: Drop> From<AllocFailed<T>> for Why {
    fn from(error: AllocFailed<T>) -> Why {
        Why::Misread(error.into())
    }
}

impl From<io::Error> for Why {
    fn from(_error: io::Error) -> Why {
        Why::Output
    }
}
