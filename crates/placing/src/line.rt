// A line at its place: its label, then its statement.
ghost use Rattle.std.specs.Prelude.{◌≡◌, ℕ, ◌+◌, ◌≤◌, length};
ghost use Rattle.statements.specs.Reading.{line_read};
ghost use Rattle.codes.specs.Limits.{most_cells, longest_source};
ghost use Rattle.labels.specs.Inner.Labels.{Part, Rows};
ghost use Rattle.placing.specs.Inner.State.{place_in, Fair, FairDid, TellsLine};

use super::Counters;
use super::declaring::declare;
use super::placing::place_statement;
use codes::refusals::Refusal;
use statements::LineRead;
use values::Name;

fn place_named(
    s: &[u8],
    from: usize,
    line: &[u8],
    read: LineRead,
    n: Name,
    starts: &mut [u16],
    keys: &mut [u16],
    values: &mut [u16],
    marks: &mut [u8],
    c: Counters,
) -> Result<Counters, Refusal>
    requires { Fair c
        × Rows starts.old keys.old values.old
        × (length marks.old ≤ most_cells)
        × (read ≡ line_read line.now)
        × (from + length line.now ≤ longest_source)
        × Part s.now from line.now
        × (read.label ≡ Some n) }
    ensures { FairDid result
        × ((k : ℕ) → TellsLine (length marks.old) line.now
        (place_in s.now starts.old keys.old values.old marks.old c)
        (place_in s.now starts.new keys.new values.new marks.new) k result) }
{
    let st = read.statement;
    let d = declare(s, from, line, starts, keys, c, n)?;
    place_statement(values, marks, d, st)
}

// A line that passes leaves the counters behind it; else it is the first refusal of it.
pub fn place_line(
    s: &[u8],
    from: usize,
    line: &[u8],
    read: LineRead,
    starts: &mut [u16],
    keys: &mut [u16],
    values: &mut [u16],
    marks: &mut [u8],
    c: Counters,
) -> Result<Counters, Refusal>
    requires { Fair c
        × Rows starts.old keys.old values.old
        × (length marks.old ≤ most_cells)
        × (read ≡ line_read line.now)
        × (from + length line.now ≤ longest_source)
        × Part s.now from line.now }
    ensures { FairDid result
        × ((k : ℕ) → TellsLine (length marks.old) line.now
        (place_in s.now starts.old keys.old values.old marks.old c)
        (place_in s.now starts.new keys.new values.new marks.new) k result) }
{
    let st = read.statement;
    match read.label {
        None => place_statement(values, marks, c, st),
        Some(n) => place_named(s, from, line, read, n, starts, keys, values, marks, c),
    }
}
