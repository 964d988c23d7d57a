// Why no more is answered.
use std::alloc::{AllocError, AllocFailed};
use std::num::TryFromIntError;
use std::{fmt, io};

#[derive(Clone, Copy, Debug)]
pub(crate) enum Stop {
    Malformed,
    Unfinished,
    TooLong,
    Unreadable,
    Unwritten,
    OutOfMemory,
}

// What fails where a reply is written.
impl From<io::Error> for Stop {
    fn from(_error: io::Error) -> Stop {
        Stop::Unwritten
    }
}

impl From<TryFromIntError> for Stop {
    fn from(_error: TryFromIntError) -> Stop {
        Stop::Malformed
    }
}

impl From<AllocError> for Stop {
    fn from(_error: AllocError) -> Stop {
        Stop::OutOfMemory
    }
}

impl<T: Drop> From<AllocFailed<T>> for Stop {
    fn from(_error: AllocFailed<T>) -> Stop {
        Stop::OutOfMemory
    }
}

// As it is said of a line, behind its number.
impl fmt::Display for Stop {
    fn fmt<W: fmt::Write>(&self, f: &mut fmt::Formatter<W>) -> fmt::Result {
        match self {
            Stop::Malformed => write!(f, " is malformed"),
            Stop::Unfinished => write!(f, " ends without its LF"),
            Stop::TooLong => write!(f, " is too long"),
            Stop::Unreadable => write!(f, " cannot be read"),
            Stop::Unwritten => write!(f, ": its reply cannot be written"),
            Stop::OutOfMemory => write!(f, ": there is no memory for it"),
        }
    }
}

// The same with the line's number.
#[derive(Clone, Copy, Debug)]
pub(crate) struct Stopped {
    pub line: u64,
    pub why: Stop,
}
