// `assemble FILE M`: assembles a file and prints its image, or `refused=`, `line=` and `column=` (document 01, "The printed image"; 02, K4). A
// refusal is told on standard error too, in one sentence with the line and a caret; so is a file that cannot be read, and output that cannot
// be written. M is judged before the file is opened. The program ends with 0 whatever it says: the script `assemble` at the root gives a status by what was printed.
#![tactic(auto)]

mod failures; // why there is no answer
mod printing; // the image, written out

ghost use Rattle.std.specs.Prelude.{◌≤◌};
ghost use Rattle.desk.specs.Sizes.{largest_m};

use desk::arguments::{LARGEST_M, LONGEST_PATH};
use desk::refusals::{Refusal, Source, WRONG_M, print_refusal};
use desk::{arguments, source};
use failures::Failure;

fn refuse(rt: &HostRuntime, source: Source<'_>, refusal: Refusal) {
    print_refusal(&mut rt.stdout(), &mut rt.stderr(), source, refusal);
}

// Assembles a source into a memory of as many cells as M says, and prints.
fn assemble_source(
    rt: &HostRuntime,
    source: Source<'_>,
    size: usize,
) -> Result<(), Failure<'static>>
    requires { size ≤ largest_m }
{
    let mut room = [0; LARGEST_M];
    let mut marks = [0; LARGEST_M];
    let memory = &mut room[..size];
    let map = &mut marks[..size];
    let reply = assembler::assemble::assemble(source.text, memory, map);
    if reply.refusal == 0 {
        return printing::print_image(&mut rt.stdout(), memory, map);
    }
    let refusal = Refusal {
        number: reply.refusal,
        line: reply.line,
        column: reply.column,
    };
    refuse(rt, source, refusal);
    Ok(())
}

// The whole call, with a room for FILE.
fn assemble<'a>(rt: &HostRuntime, room: &'a mut [u8]) -> Result<(), Failure<'a>> {
    if arguments::count(rt) != 3 {
        return Err(Failure::Usage);
    }
    let Some(size) = arguments::size(rt) else {
        let path = arguments::argument(rt, 1, room);
        refuse(rt, Source { path, text: b"" }, WRONG_M);
        return Ok(());
    };
    let path = arguments::file(rt, room).map_err(|error| Failure::System(
        b"assemble: FILE",
        error,
    ))?;
    let mut room = [0; source::ROOM];
    let text = source::read(rt, path, &mut room).map_err(|error| Failure::System(path, error))?;
    assemble_source(rt, Source { path, text }, size)
}

fn main(rt: HostRuntime) {
    let mut room = [0; LONGEST_PATH];
    if let Err(failure) = assemble(&rt, &mut room) {
        let _ = failures::tell(&mut rt.stderr(), failure);
    }
}
