// Text in a room, text written out, and a failure told.
ghost use Rattle.std.specs.Prelude.{◌≡◌, List, ℕ, true, OnOk};
ghost use Rattle.std.specs.Io.KnownBytes.{Appends, Keeps};
ghost use Rattle.ports.specs.Output.{text_put};
ghost use Rattle.desk.specs.Putting.{PutSo};
ghost use Rattle.desk.specs.Failures.{failure_text};

use ports::output::put_text;
use std::fmt::InlineText;
use std::io;
use std::io::Write;

// Puts a text at a place, and answers the place after it; what does not fit is left out.
pub fn put(out: &mut [u8], at: usize, text: &[u8]) -> usize
    ensures { PutSo at (text_put out.old at text.now) out.new result }
{
    put_text(out, at, text).unwrap_or(at)
}

// The system's sentence, without the number that `io::Error` puts behind it.
fn unnumbered(sentence: &str) -> &str {
    match sentence.rsplit_once(" (os error ") {
        Some((why, _)) => why,
        None => sentence,
    }
}

// Tells on standard error what failed, and why, in the system's words. Each piece is tried, whatever became of those before it; the first
// failure is handed back.
pub fn tell_failure<E: Write>(errors: &mut E, what: &[u8], error: &io::Error) -> io::Result<()>
    ensures { OnOk result ((why : List ℕ) × Appends (E.contents errors.old) (E.contents errors.new) (failure_text what.now why)) }
{
    let told = InlineText::<256>::of(error);
    let first = errors.write_all(what);
    let second = errors.write_all(b": ");
    let third = errors.write_all(unnumbered(told.as_str()).as_bytes());
    let last = errors.write_all(b"\n");
    first.and(second).and(third).and(last)
}

// The same, where nothing can be done about a failure to tell; answers whether all of it was taken.
pub fn fail<E: Write>(errors: &mut E, what: &[u8], error: &io::Error) -> bool
    ensures { result ≡ true → (why : List ℕ) × Appends (E.contents errors.old) (E.contents errors.new) (failure_text what.now why) }
{
    tell_failure(errors, what, error).is_ok()
}

// Writes a text to standard output. Output that cannot be written is told, and handed back.
pub(crate) fn try_write<O: Write, E: Write>(
    output: &mut O,
    errors: &mut E,
    text: &[u8],
) -> io::Result<()>
    ensures taken { OnOk result (Appends (O.contents output.old) (O.contents output.new) text.now) }
    ensures untold { OnOk result (Keeps (E.contents errors.old) (E.contents errors.new)) }
{
    match output.write_all(text) {
        Ok(()) => Ok(()),
        Err(error) => {
            fail(errors, b"output", &error);
            Err(error)
        }
    }
}

// The same to standard error.
pub(crate) fn try_write_error<E: Write>(errors: &mut E, text: &[u8]) -> io::Result<()>
    ensures { OnOk result (Appends (E.contents errors.old) (E.contents errors.new) text.now) }
{
    match errors.write_all(text) {
        Ok(()) => Ok(()),
        Err(error) => {
            fail(errors, b"output", &error);
            Err(error)
        }
    }
}

// Writes a text to standard output, and answers whether all of it was taken. Output that cannot be written is told. What becomes of it is
// the operating system's.
pub fn write<O: Write, E: Write>(output: &mut O, errors: &mut E, text: &[u8]) -> bool
    ensures taken { result ≡ true → Appends (O.contents output.old) (O.contents output.new) text.now }
    ensures untold { result ≡ true → Keeps (E.contents errors.old) (E.contents errors.new) }
{
    try_write(output, errors, text).is_ok()
}

// The same to standard error.
pub fn write_error<E: Write>(errors: &mut E, text: &[u8]) -> bool
    ensures { result ≡ true → Appends (E.contents errors.old) (E.contents errors.new) text.now }
{
    try_write_error(errors, text).is_ok()
}
