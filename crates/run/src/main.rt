// `run FILE M [BUDGET]`: assembles a file and runs it from registers of zero, with standard input as its input. The rule's output goes to
// standard output, the record of the run (crates/record) to standard error. A refused source is told as by `assemble`. The program
// ends with 0 whatever it says: the script `run` at the root gives a status by what was printed.
#![tactic(auto)]

mod arguments; // BUDGET
mod failures; // why there is no run
mod input; // standard input, read to its end
mod running; // the run, its output and its record

ghost use Rattle.std.specs.Prelude.{◌≤◌};
ghost use Rattle.desk.specs.Sizes.{largest_m};

use desk::arguments::{LARGEST_M, LONGEST_PATH, LONGEST_WORD, argument, file, size_of};
use desk::refusals::{Refusal, Source, WRONG_M, print_refusal};
use desk::source;
use failures::Failure;

fn refuse(rt: &HostRuntime, source: Source<'_>, refusal: Refusal) {
    print_refusal(&mut rt.stdout(), &mut rt.stderr(), source, refusal);
}

// Assembles a source into a memory of as many cells as M says, and runs it.
fn run_source(
    rt: &HostRuntime,
    source: Source<'_>,
    size: usize,
    given: &[u8],
    budget: u32,
) -> Result<(), Failure<'static>>
    requires { size ≤ largest_m }
{
    let mut room = [0; LARGEST_M];
    let mut marks = [0; LARGEST_M];
    let memory = &mut room[..size];
    let reply = assembler::assemble::assemble(source.text, memory, &mut marks[..size]);
    if reply.refusal == 0 {
        return running::run(&mut rt.stdout(), &mut rt.stderr(), memory, given, budget);
    }
    let refusal = Refusal {
        number: reply.refusal,
        line: reply.line,
        column: reply.column,
    };
    refuse(rt, source, refusal);
    Ok(())
}

// The whole call, with a room for FILE. Standard input is read to its end before anything is assembled, into the room that held a word: two
// such rooms would be too much of a small stack.
fn run<'a>(rt: &HostRuntime, room: &'a mut [u8]) -> Result<(), Failure<'a>> {
    let mut held = [0; LONGEST_WORD];
    let budget = arguments::budget(rt, &mut held).ok_or(Failure::Usage)?;
    let Some(size) = size_of(argument(rt, 2, &mut held)) else {
        let path = argument(rt, 1, room);
        refuse(rt, Source { path, text: b"" }, WRONG_M);
        return Ok(());
    };
    let path = file(rt, room).map_err(|error| Failure::System(b"run: FILE", error))?;
    let mut room = [0; source::ROOM];
    let text = source::read(rt, path, &mut room).map_err(|error| Failure::System(path, error))?;
    let given = input::read(&mut rt.stdin(), &mut held)?;
    run_source(rt, Source { path, text }, size, given, budget)
}

fn main(rt: HostRuntime) {
    let mut room = [0; LONGEST_PATH];
    if let Err(failure) = run(&rt, &mut room) {
        let _ = failures::tell(&mut rt.stderr(), failure);
    }
}
