// A run, its output on standard output and its record on standard error.
use super::failures::Failure;
use machine::{Ran, Registers};
use std::io::Write;

const LONGEST_RECORD: usize = 400;

const LARGEST_OUTPUT: usize = 65536;

// "Registers and stop code start at 0."
const START: Registers = Registers {
    r: [0; 16],
    stop: 0,
    taken: 0,
    written: 0,
};

fn print_record(errors: &mut impl Write, ran: Ran) -> Result<(), Failure<'static>> {
    let mut room = [0; LONGEST_RECORD];
    let length = record::recording::write_record(ran, &mut room)?;
    let text = room.get(..length).ok_or(Failure::NoRecord)?;
    errors.write_all(text)?;
    Ok(())
}

// Runs a memory on an input. The record is printed only where the output could be.
pub(crate) fn run(
    output: &mut impl Write,
    errors: &mut impl Write,
    memory: &mut [u16],
    given: &[u8],
    budget: u32,
) -> Result<(), Failure<'static>> {
    let mut room = [0; LARGEST_OUTPUT];
    let ran = machine::run::run(START, memory, given, &mut room, budget);
    if let Some(written) = room.get(..ran.registers.written) {
        output.write_all(written)?;
        print_record(errors, ran)?;
    }
    Ok(())
}
