// Why there is no run, or no record of it.
use desk::printing::tell_failure;
use record::NotRecorded;
use std::io;
use std::io::Write;

#[derive(Drop)]
pub(crate) enum Failure<'a> {
    Usage,
    // what failed, and why
    System(&'a [u8], io::Error),
    InputTooLong,
    // The room has place for the longest record, and no position passes 65,536: this is said of none.
    NoRecord,
}

impl From<io::Error> for Failure<'static> {
    fn from(error: io::Error) -> Failure<'static> {
        Failure::System(b"output", error)
    }
}

impl From<NotRecorded> for Failure<'static> {
    fn from(_why: NotRecorded) -> Failure<'static> {
        Failure::NoRecord
    }
}

// A sentence on standard error.
pub(crate) fn tell(errors: &mut impl Write, failure: Failure<'_>) -> io::Result<()> {
    match failure {
        Failure::Usage => {
            errors.write_all(b"usage: run FILE M [BUDGET]     BUDGET: 0 to 1000000, else 10000\n")
        }
        Failure::System(what, error) => tell_failure(errors, what, &error),
        Failure::InputTooLong => errors.write_all(b"run: an input of more than 65536 bytes\n"),
        Failure::NoRecord => errors.write_all(b"run: the record cannot be printed\n"),
    }
}
