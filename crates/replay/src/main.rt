// Answers cases with the proved crates, in the second program's format (docs/COMPARED.md, "Cases" and "Replies", every kind but L): cases
// from standard input, replies to standard output. A line has at most 1,048,576 bytes with its LF. What keeps a case from being answered is
// told on standard error and ends the program. The program ends with 0 whatever it says: `second/cases/answer` gives a status.
#![tactic(auto)]

mod assembling; // sources
mod cases; // the cases of the input, each to its reply
mod fields; // numbers and bytes of a line
mod images; // printing and listing
mod instructions; // encoding and decoding
mod loans; // what a case lends: memory, map and room
mod machines; // steps and runs
mod replies; // what was changed in what was lent
mod stops; // why no more is answered

use cases::answer_all;
use std::io::Write;
use stops::Stopped;

fn main(rt: HostRuntime) {
    if let Err(Stopped { line, why }) = answer_all(rt.alloc(), rt.stdin(), rt.stdout()) {
        let _ = writeln!(&mut rt.stderr(), "replay: line {line}{why}");
    }
}
