// A source to memory and map. Nothing lent is written before acceptance is certain: cells and marks are made in rows of our own.
ghost use Rattle.std.specs.Prelude.{◌≡◌, ◌≤◌, ◌<◌, length};
ghost use Rattle.codes.specs.Refusals.{number};
ghost use Rattle.codes.specs.Limits.{most_cells, longest_source};
ghost use Rattle.columns.specs.Columns.{line_numbered, pointed};
ghost use Rattle.labels.specs.Inner.Labels.{labels_in, Reach};
ghost use Rattle.sources.specs.Order.{◌on◌};
ghost use Rattle.sources.specs.Inner.Assembling.{passes};
ghost use Rattle.sources.specs.Inner.Pointing.{nowhere};
ghost use Rattle.uses.specs.Inner.Held.{uses_held, Room, most_uses};
ghost use Rattle.walking.specs.Inner.Walking.{Lent};
ghost use Rattle.assembler.specs.Promise.{told, refusal, Replies};
ghost use Rattle.assembler.specs.Inner.Parts.{refusal_at, outcome, outcome_by, outcome_of_uses, outcome_of};

use super::Reply;
use super::counting::counted;
use codes::limits::{LONGEST_SOURCE, MOST_CELLS, MOST_LABELS};
use codes::marks::{CODE, DATA, RESERVED};
use codes::refusals::Refusal;
use columns::Column;
use columns::lines::{name_in, pointed_in};
use labels::chains::KEY_CELLS;
use settling::settle::settle;
use sources::Line;
use uses::keeping::{MOST_USES, ROW_CELLS};
use walking::walk::walk;
use walking::{Stopped, Walked};

fn refused(why: Refusal, line: Line, column: Column, place: u8) -> Reply
    ensures { told result ≡ refusal (number why on line.0) column.0 place }
{
    Reply {
        refusal: u8::from(why),
        line,
        column,
        place,
        code: 0,
        data: 0,
        reserved: 0,
    }
}

// A line is refused: it is read once more, for where the refusal points.
fn refused_line(s: &[u8], why: Refusal, line: Line) -> Reply
    ensures { told result ≡ refusal_at (number why on line.0) (pointed (line_numbered s.now line.0) (number why)) }
{
    let p = pointed_in(s, line.0, u8::from(why));
    refused(why, line, p.column, p.place)
}

// Acceptance: the whole memory and the whole map are rewritten.
fn accept(cells: &[u16], marks: &[u8], memory: &mut [u16], map: &mut [u8]) -> Reply
    requires { (length cells.now ≡ length memory.old) × (length marks.now ≡ length map.old) }
    ensures { outcome result memory.new map.new
        ≡ outcome_by passes nowhere cells.now marks.now memory.old map.old }
{
    memory.copy_from_slice(cells);
    map.copy_from_slice(marks);
    let code = counted(marks, CODE);
    let data = counted(marks, DATA);
    let reserved = counted(marks, RESERVED);
    Reply {
        refusal: 0,
        line: Line(0),
        column: Column(0),
        place: 0,
        code,
        data,
        reserved,
    }
}

// Every line has passed: labels are settled, then the source is accepted.
fn settle_and_accept(
    s: &[u8],
    starts: &[u16],
    keys: &[u16],
    values: &[u16],
    labels: usize,
    row: &[u16],
    aways: &[u8],
    uses: usize,
    cells: &mut [u16],
    marks: &[u8],
    memory: &mut [u16],
    map: &mut [u8],
) -> Reply
    requires { Reach labels starts.now keys.now values.now
        × (uses < most_uses)
        × Room uses row.now aways.now
        × (length cells.old ≡ length memory.old)
        × (length marks.now ≡ length map.old) }
    ensures { outcome result memory.new map.new
        ≡ outcome_of_uses s.now (labels_in s.now starts.now keys.now values.now labels)
        (uses_held s.now row.now aways.now uses)
        cells.old marks.now memory.old map.old }
{
    match settle(s, starts, keys, values, labels, row, aways, uses, cells) {
        Err(why) => {
            let column = name_in(s, why.line.0, u8::from(why.refusal), why.second);
            refused(why.refusal, why.line, column, 0)
        }
        Ok(()) => accept(cells, marks, memory, map),
    }
}

// All of it, over rows that are lent.
fn assemble_over(
    s: &[u8],
    starts: &mut [u16],
    keys: &mut [u16],
    values: &mut [u16],
    marks: &mut [u8],
    cells: &mut [u16],
    row: &mut [u16],
    aways: &mut [u8],
    memory: &mut [u16],
    map: &mut [u8],
) -> Reply
    requires { Lent s.now starts.old keys.old values.old marks.old cells.old row.old aways.old
        × (length memory.old ≡ length marks.old)
        × (length map.old ≡ length marks.old) }
    ensures { outcome result memory.new map.new
        ≡ outcome_of (length marks.old) s.now memory.old map.old }
{
    match walk(s, starts, keys, values, marks, cells, row, aways) {
        Err(Stopped::InLine(why, line)) => refused_line(s, why, line),
        Err(Stopped::Late(line)) => refused(Refusal::OutOfRange, line, Column(0), 0),
        Ok(Walked { labels, uses }) => settle_and_accept(
            s, starts, keys, values, labels, row, aways, uses, cells, marks, memory, map,
        ),
    }
}

// The same over rows of our own: 512 labels, a map and a memory of 65,536 cells, and as many labels in operands as a source can name.
fn assemble_lent(s: &[u8], memory: &mut [u16], map: &mut [u8]) -> Reply
    requires { (length s.now ≤ longest_source) × (length memory.old ≤ most_cells) × (length map.old ≡ length memory.old) }
    ensures { outcome result memory.new map.new
        ≡ outcome_of (length memory.old) s.now memory.old map.old }
{
    let m = memory.len();
    let mut starts = [0u16; MOST_LABELS];
    let mut keys = [0u16; KEY_CELLS];
    let mut values = [0u16; MOST_LABELS];
    let mut marks = [0u8; MOST_CELLS];
    let mut cells = [0u16; MOST_CELLS];
    let mut row = [0u16; ROW_CELLS];
    let mut aways = [0u8; MOST_USES];
    assemble_over(
        s,
        &mut starts,
        &mut keys,
        &mut values,
        &mut marks[..m],
        &mut cells[..m],
        &mut row,
        &mut aways,
        memory,
        map,
    )
}

// Assembles a source into a lent memory and map, or refuses it and leaves both as they were.
pub fn assemble(source: &[u8], memory: &mut [u16], map: &mut [u8]) -> Reply
    ensures { Replies source.now memory.old map.old result memory.new map.new }
{
    let m = memory.len();
    if m == 0 || MOST_CELLS < m || map.len() != m {
        return refused(Refusal::BadLoan, Line(0), Column(0), 0);
    }
    if LONGEST_SOURCE < source.len() {
        return refused(Refusal::LongSource, Line(0), Column(0), 0);
    }
    assemble_lent(source, memory, map)
}
