// Answers cases of single lines with the proved reader, in the second program's format (docs/COMPARED.md, "Cases" and
// "Replies", kind L): cases from standard input, replies to standard output. Nothing larger than a line is held, so that the
// reader can be seen to do with a stack of 64 KB. A line has at most 33,000 bytes, twice as many digits. What keeps a case from being
// answered is told on standard error and ends the program; `second/cases/answer` gives the exit status, as for `replay`.
#![tactic(auto)]

mod answers; // a line's reply
mod cases; // the bytes of a case, one after another
mod stops; // why no more is answered

use cases::answer_all;
use std::io::Write;

fn main(rt: HostRuntime) {
    if let Err(stop) = answer_all(rt.stdin(), &mut rt.stdout()) {
        let mut errors = rt.stderr();
        // the reason is tried also where the name could not be written
        let _ = errors.write_all(b"replay_lines: ");
        let _ = write!(errors, "{stop}");
    }
}
