// All lines of a source up to END, and the source's end.
ghost use Rattle.std.specs.Prelude.{cond, ◌&&◌, ◌≡◌, ◌+◌, ◌≤◌, ◌<◌, ltb, leb, length};
ghost use Rattle.std.proofs.lemmas.List.Edits.{sets};
ghost use Rattle.codes.specs.Limits.{most_cells, longest_source};
ghost use Rattle.statements.specs.Reading.{line_read};
ghost use Rattle.sources.specs.Placing.{does_read};
ghost use Rattle.sources.specs.Uses.{uses_read};
ghost use Rattle.sources.specs.Inner.Assembling.{ends_it, raw_read};
ghost use Rattle.labels.specs.Inner.Labels.{InCell};
ghost use Rattle.uses.specs.Inner.Held.{Room};
ghost use Rattle.walking.specs.Inner.Noting.{AddsOf};
ghost use Rattle.walking.specs.Inner.Walking.{Lent, work_in, SaysLines, Holds, EndsSource};

use super::noting::note_statement;
use super::writing::write_statement;
use super::{Lines, Stopped, Walked};
use codes::limits::MOST_CELLS;
use isa::Address;
use placing::Counters;
use placing::line::place_line;
use placing::naming::bind_here;
use sources::Line;
use statements::line::read_line;
use statements::{Failure, Statement};
use tokens::lines::line_end;

// Where the next line starts; behind END, the source's end.
fn next_line(read: Result<Statement, Failure>, next: usize, total: usize) -> usize
    ensures { result ≡ cond (ends_it read) total next }
{
    match read {
        Ok(Statement::End) => total,
        _ => next,
    }
}

// A line's cells, and the labels that its operands name; hands back how many labels are named by then.
fn keep_line(
    line: &[u8],
    from: usize,
    number: usize,
    read: Result<Statement, Failure>,
    at: usize,
    cells: &mut [u16],
    row: &mut [u16],
    aways: &mut [u8],
    count: usize,
) -> usize
    requires { ((line_read line.now).statement ≡ read)
        × (from + length line.now ≤ longest_source)
        × InCell number
        × (at ≤ most_cells)
        × (0 < (does_read read).claims → at + (does_read read).claims ≤ most_cells)
        × Room (count + 2) row.old aways.old }
    ensures { (cells.new ≡ sets cells.old at (raw_read line.now read))
        × AddsOf from line.now row.old aways.old count
        (uses_read number line.now at read) row.new aways.new result
        × (count ≤ result)
        × (result ≤ count + length line.now + 1) }
{
    let Ok(says) = read else {
        return count;
    };
    write_statement(line, says, cells, at);
    note_statement(line, from, number, says, at, row, aways, count)
}

fn walk_lines(
    s: &[u8],
    starts: &mut [u16],
    keys: &mut [u16],
    values: &mut [u16],
    marks: &mut [u8],
    cells: &mut [u16],
    row: &mut [u16],
    aways: &mut [u8],
) -> Result<Lines, Stopped>
    requires { Lent s.now starts.old keys.old values.old marks.old cells.old row.old aways.old }
    ensures { SaysLines (length marks.old) s.now
        (work_in s.now starts.new keys.new values.new marks.new
        cells.new row.new aways.new) result }
{
    let mut c = Counters {
        at: Address(0),
        bound: 0,
        waiting: 0,
    };
    let mut from: usize = 0;
    let mut number: usize = 0;
    let mut uses: usize = 0;
    // a line begins where the one before ended, and none does behind END: an iterator of lines would not say where
    while from < s.len() {
        let end = line_end(s, from);
        let line = &s[from..end];
        let read = read_line(line);
        let at = c.at.0;
        number += 1;
        let placed = place_line(s, from, line, read, starts, keys, values, marks, c);
        c = placed.map_err(|f| Stopped::InLine(f, Line(number)))?;
        let st = read.statement;
        uses = keep_line(line, from, number, st, at, cells, row, aways, uses);
        from = next_line(st, end + 1, s.len());
    }
    Ok(Lines {
        counters: c,
        uses,
        last: Line(number),
    })
}

// A label that waits at the source's end would get 65,536.
fn is_late(waiting: usize, at: usize) -> bool
    ensures { result ≡ (ltb 0 waiting && leb most_cells at) }
{
    0 < waiting && MOST_CELLS <= at
}

// All lines pass and every label is bound, or the first refusal: "65,536 is 6 .., or the last line for labels bound at the source's end".
pub fn walk(
    s: &[u8],
    starts: &mut [u16],
    keys: &mut [u16],
    values: &mut [u16],
    marks: &mut [u8],
    cells: &mut [u16],
    row: &mut [u16],
    aways: &mut [u8],
) -> Result<Walked, Stopped>
    requires { Lent s.now starts.old keys.old values.old marks.old cells.old row.old aways.old }
    ensures { EndsSource (length marks.old) s.now
        (Holds s.now starts.new keys.new values.new marks.new
        cells.new row.new aways.new) result }
{
    let Lines {
        counters,
        uses,
        last,
    } = walk_lines(s, starts, keys, values, marks, cells, row, aways)?;
    let at = counters.at.0;
    if is_late(counters.waiting, at) {
        return Err(Stopped::Late(last));
    }
    let d = bind_here(values, counters);
    let labels = d.bound;
    Ok(Walked { labels, uses })
}
