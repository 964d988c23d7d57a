// Cases of assembling.
use super::fields::Fields;
use super::loans::{CELLS, filled};
use super::replies::{cells_changed, marks_but};
use super::stops::Stop;
use assembler::Reply;
use assembler::assemble::assemble;
use std::alloc::Global;
use std::io;
use std::io::Write;

// Refusal, line, column, the operand's place, and counts: code, data, reserved.
fn head(out: &mut impl Write, reply: Reply) -> io::Result<()> {
    let refusal = reply.refusal;
    let line = reply.line.0;
    let column = reply.column.0;
    let place = reply.place;
    let code = reply.code;
    let data = reply.data;
    let reserved = reply.reserved;
    write!(
        out,
        "{refusal} {line} {column} {place} {code} {data} {reserved}"
    )
}

// `M MAPLEN FILL STEP MAPFILL SOURCE`: after a refusal what is not as it was lent is told, after acceptance what is not 0.
pub(crate) fn source_case(
    alloc: Global,
    mut fields: Fields<'_>,
    out: &mut impl Write,
) -> Result<(), Stop> {
    let size = fields.at_most(CELLS)?;
    let length = fields.at_most(CELLS)?;
    let mut before = filled(alloc, &mut fields, size)?;
    let mut mark = fields.byte()?;
    let source = fields.bytes(alloc)?;
    fields.end()?;
    let mut m = before.clone()?;
    let mut map = vec![in alloc; mark; length]?;
    let reply = assemble(&source, &mut m, &mut map);
    if reply.refusal == 0 {
        before.fill(0);
        mark = 0;
    }
    head(out, reply)?;
    cells_changed(out, &before, &m)?;
    marks_but(out, mark, &map)?;
    Ok(())
}
