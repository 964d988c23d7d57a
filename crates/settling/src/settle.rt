// All labels that operands name, in the order of lines and operands.
ghost use Rattle.std.specs.Prelude.{◌<◌};
ghost use Rattle.labels.specs.Inner.Labels.{labels_in, Reach};
ghost use Rattle.uses.specs.Inner.Held.{uses_held, Room, most_uses};
ghost use Rattle.settling.specs.Inner.Settling.{SettlesUses};

use super::Unsettled;
use super::words::word;
use sources::Line;
use uses::cells::put;

// Ok: every label has its word in its cell. Else it is the first refusal.
pub fn settle(
    s: &[u8],
    starts: &[u16],
    keys: &[u16],
    values: &[u16],
    count: usize,
    row: &[u16],
    aways: &[u8],
    uses: usize,
    cells: &mut [u16],
) -> Result<(), Unsettled>
    requires { Reach count starts.now keys.now values.now × (uses < most_uses) × Room uses row.now aways.now }
    ensures { SettlesUses (labels_in s.now starts.now keys.now values.now count)
        (uses_held s.now row.now aways.now uses) cells.old cells.new result }
{
    let mut before: usize = 0; // the line of the label before
    // over the numbers: a label's are four of one row and one of the other
    for i in 0..uses {
        let base = 4 * i;
        let start = row[base] as usize;
        let size = row[base + 1] as usize;
        let cell = row[base + 2] as usize;
        let line = row[base + 3] as usize;
        let away = aways[i] as usize;
        let found = word(s, starts, keys, values, count, start, size, cell, away);
        let w = found.map_err(|refusal| Unsettled {
            refusal,
            line: Line(line),
            second: line == before,
        })?;
        put(cells, cell, w);
        before = line;
    }
    Ok(())
}
