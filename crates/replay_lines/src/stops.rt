// Why no more is answered.
use std::{fmt, io};

#[derive(Clone, Copy, Debug)]
pub(crate) enum Stop {
    Malformed,
    TooLong,
    Unfinished,
    Unreadable,
    Unwritten,
}

// A sentence with its LF, in one write.
impl fmt::Display for Stop {
    fn fmt<W: fmt::Write>(&self, f: &mut fmt::Formatter<W>) -> fmt::Result {
        match self {
            Stop::Malformed => writeln!(f, "a case is malformed"),
            Stop::TooLong => writeln!(f, "a line is too long"),
            Stop::Unfinished => writeln!(f, "the last case ends without its LF"),
            Stop::Unreadable => writeln!(f, "the cases cannot be read"),
            Stop::Unwritten => writeln!(f, "a reply cannot be written"),
        }
    }
}

// What fails where a reply is written.
impl From<io::Error> for Stop {
    fn from(_error: io::Error) -> Stop {
        Stop::Unwritten
    }
}
