// Fixed work on the proved machine, to be timed beside the second program (docs/COMPARED.md, "Speed"): three programs
// without an end, so many steps of each; then two sources from standard input, parted by a byte 0, assembled a hundred times
// each. For each a line that tells what it came to.
#![tactic(auto)]

ghost use Rattle.std.specs.Prelude.{◌≤◌, length};

mod assembling; // sources
mod checksum;
mod images; // the three programs as words

use checksum::Checksum;
use machine::Registers;
use machine::run::run;
use std::io;
use std::io::{Read, Write};

// The room that a program writes into; and the sources as they are read.
const LARGE_ROOM: usize = 65536;

// What a work came to: the registers it left, the last run's stop, and the steps in all.
#[derive(Clone, Copy)]
struct Done {
    registers: Registers,
    stop: u8,
    steps: u64,
}

// So many runs, from zero registers. Each writes the output room from its start.
fn perform(m: &mut [u16], out: &mut [u8], budget: u32, runs: u32) -> Done {
    let mut registers = Registers {
        r: [0; 16],
        stop: 0,
        taken: 0,
        written: 0,
    };
    let mut stop = 0;
    let mut steps = 0u64;
    for _ in 0..runs {
        registers.written = 0;
        let ran = run(registers, m, b"", out, budget);
        registers = ran.registers;
        stop = ran.stop;
        steps += u64::from(ran.count);
    }
    Done {
        registers,
        stop,
        steps,
    }
}

// A program's runs, and the line that tells what they came to.
fn work(
    output: &mut impl Write,
    name: &str,
    words: &[u16],
    budget: u32,
    runs: u32,
) -> io::Result<()> {
    let mut cells = [0u16; 1024];
    let mut room = [0u8; LARGE_ROOM];
    images::load(&mut cells, words);
    let Done {
        registers,
        stop,
        steps,
    } = perform(&mut cells, &mut room, budget, runs);
    let sum = Checksum::new()
        .over(&registers.r)
        .over(&cells)
        .over(&room)
        .sum;
    writeln!(output, "{name}: {steps} steps, stop {stop}, checksum {sum}")
}

// Reads until a room is full, the input ends or a read fails. How far a turn goes is the reader's, so no `for`.
fn read_full<'a>(input: &mut impl Read, room: &'a mut [u8]) -> &'a [u8]
    ensures { length result.now ≤ length room.old }
{
    let mut held = 0;
    while held < room.len() {
        match input.read(&mut room[held..]) {
            Ok(0) | Err(_) => break,
            Ok(n) => held += n,
        }
    }
    &room[..held]
}

// Output that cannot be written is missed by whoever times it, and all the other work is done.
fn main(rt: HostRuntime) {
    let mut output = rt.stdout();
    let _ = work(&mut output, "arithmetic", &images::ARITHMETIC, 1000000, 8);
    let _ = work(&mut output, "table", &images::TABLE, 1000000, 8);
    let _ = work(&mut output, "text", &images::TEXT, 8000, 1000);
    let mut room = [0; LARGE_ROOM];
    assembling::sources(&mut output, read_full(&mut rt.stdin(), &mut room));
}
