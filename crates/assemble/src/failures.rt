// Why the program has no answer.
use desk::printing::tell_failure;
use image::NotPrinted;
use std::io;
use std::io::Write;

#[derive(Drop)]
pub(crate) enum Failure<'a> {
    Usage,
    // what failed, and why
    System(&'a [u8], io::Error),
    // The room has place for the largest image: this is said of none.
    NoImage,
}

impl From<io::Error> for Failure<'static> {
    fn from(error: io::Error) -> Failure<'static> {
        Failure::System(b"output", error)
    }
}

impl From<NotPrinted> for Failure<'static> {
    fn from(_why: NotPrinted) -> Failure<'static> {
        Failure::NoImage
    }
}

// A sentence on standard error.
pub(crate) fn tell(errors: &mut impl Write, failure: Failure<'_>) -> io::Result<()> {
    match failure {
        Failure::Usage => errors.write_all(b"usage: assemble FILE M\n"),
        Failure::System(what, error) => tell_failure(errors, what, &error),
        Failure::NoImage => errors.write_all(b"assemble: the image cannot be printed\n"),
    }
}
