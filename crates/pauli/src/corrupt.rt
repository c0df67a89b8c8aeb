// The error of a function that meets stored words which no opening and no call can have left.
use std::error::Error;
use std::fmt;

#[derive(Clone, Copy, Debug, PartialEq, Eq, Hash)]
pub struct Corrupt;

impl fmt::Display for Corrupt {
    fn fmt<W: fmt::Write>(&self, f: &mut fmt::Formatter<W>) -> fmt::Result {
        f.write_str("the stored words hold no state")
    }
}

impl Error for Corrupt {}
