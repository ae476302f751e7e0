//! The one failure of a port. Which call failed, a count of faults tells.
use std::error::Error;
use std::fmt;

/// A call to the outside failed.
#[derive(Clone, Copy, Debug, PartialEq, Eq)]
pub struct Failed;

impl fmt::Display for Failed {
    fn fmt<W: fmt::Write>(&self, f: &mut fmt::Formatter<W>) -> fmt::Result {
        f.write_str("an input or output call failed")
    }
}

impl Error for Failed {}
