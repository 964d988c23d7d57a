// Cases of a step and of a run.
use super::fields::Fields;
use super::loans::{CELLS, cells, filled_room};
use super::replies::{cells_changed, room_changed};
use super::stops::Stop;
use machine::Registers;
use machine::run::run;
use machine::step::step;
use std::alloc::Global;
use std::io;
use std::io::Write;

// What is asked: a step, or a run with a budget.
#[derive(Clone, Copy)]
pub(crate) enum Asked {
    Step,
    Run(u32),
}

// The 16 registers of a line.
fn sixteen(fields: &mut Fields<'_>) -> Result<[u16; 16], Stop> {
    let mut r = [0; 16];
    for x in &mut r {
        *x = fields.word()?;
    }
    Ok(r)
}

// The record that is left.
fn record(out: &mut impl Write, registers: Registers) -> io::Result<()> {
    for x in registers.r {
        write!(out, " {x}")?;
    }
    let stop = registers.stop;
    let taken = registers.taken;
    let written = registers.written;
    write!(out, " {stop} {taken} {written}")
}

// Does what is asked, and tells the stop, and the steps of a run.
fn operate(
    out: &mut impl Write,
    asked: Asked,
    registers: Registers,
    m: &mut [u16],
    input: &[u8],
    room: &mut [u8],
) -> io::Result<()> {
    match asked {
        Asked::Step => {
            let done = step(registers, m, input, room);
            let stop = done.stop;
            write!(out, "{stop}")?;
            record(out, done.registers)
        }
        Asked::Run(budget) => {
            let done = run(registers, m, input, room, budget);
            let stop = done.stop;
            let count = done.count;
            write!(out, "{stop} {count}")?;
            record(out, done.registers)
        }
    }
}

// `M FILL STEP N A1 V1 .. AN VN R0 .. R15 STOP INPUT INPOS OUTLEN OUTFILL OUTPOS`.
pub(crate) fn machine_case(
    alloc: Global,
    asked: Asked,
    mut fields: Fields<'_>,
    out: &mut impl Write,
) -> Result<(), Stop> {
    let size = fields.at_most(CELLS)?;
    let mut m = cells(alloc, &mut fields, size)?;
    let r = sixteen(&mut fields)?;
    let stop = fields.byte()?;
    let input = fields.bytes(alloc)?;
    let taken = fields.number()?;
    let mut room = filled_room(alloc, &mut fields)?;
    let written = fields.number()?;
    fields.end()?;
    let registers = Registers {
        r,
        stop,
        taken,
        written,
    };
    let before = m.clone()?;
    operate(out, asked, registers, &mut m, &input, &mut room.bytes)?;
    cells_changed(out, &before, &m)?;
    room_changed(out, &room)?;
    Ok(())
}
