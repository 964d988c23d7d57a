// The word that a label stands for (sources/specs/Uses.antt, `countedWord`), or 13 or 14.
ghost use Rattle.std.specs.Prelude.{◌+◌, ◌≤◌, ◌<◌};
ghost use Rattle.codes.specs.Limits.{most_cells};
ghost use Rattle.labels.specs.Inner.Labels.{window, labels_in, Reach, farthest, InCell};
ghost use Rattle.sources.specs.Uses.{value_of};
ghost use Rattle.settling.specs.Inner.Settling.{Finds, Reaches, TellsUse};

use codes::refusals::Refusal;
use labels::finding::find;

// A name's value among the labels.
fn look_up(
    s: &[u8],
    starts: &[u16],
    keys: &[u16],
    values: &[u16],
    count: usize,
    start: usize,
    size: usize,
) -> Result<u16, Refusal>
    requires { (start < farthest) × InCell size × Reach count starts.now keys.now values.now }
    ensures { Finds (value_of (labels_in s.now starts.now keys.now values.now count) (window s.now start size)) result }
{
    let k = find(s, starts, keys, count, s, start, size);
    if k < count {
        return Ok(values[k]);
    }
    Err(Refusal::UnknownLabel)
}

// A value less the address after the instruction, if it lies from -32768 to 32767.
fn distance(value: u16, next: usize) -> Result<u16, Refusal>
    requires { next ≤ most_cells + 254 }
    ensures { Reaches value next result }
{
    let v = value as usize;
    if v + 32768 < next || next + 32767 < v {
        return Err(Refusal::FarLabel);
    }
    Ok(((v + 65536 - next) % 65536) as u16)
}

// The word of a label that is held, and how far the address after its instruction lies behind its cell.
pub(crate) fn word(
    s: &[u8],
    starts: &[u16],
    keys: &[u16],
    values: &[u16],
    count: usize,
    start: usize,
    size: usize,
    cell: usize,
    away: usize,
) -> Result<u16, Refusal>
    requires { (start < farthest) × InCell size × Reach count starts.now keys.now values.now × InCell cell × (away < 256) }
    ensures { TellsUse (labels_in s.now starts.now keys.now values.now count) s.now start size cell away result }
{
    let v = look_up(s, starts, keys, values, count, start, size)?;
    if away == 0 {
        return Ok(v);
    }
    distance(v, cell + away)
}
