// One label more, in the lent rows.
ghost use Rattle.std.specs.Prelude.{◌≡◌, ◌≤◌, ◌<◌, length};
ghost use Rattle.codes.specs.Limits.{most_labels, longest_label};
ghost use Rattle.labels.specs.Inner.Labels.{window, TakesWord, key_cells, farthest};

use super::chains::{LASTS_FROM, LINKS_FROM, NUMBERS_FROM, chain_of, key};

// A name of a line, which stands at a place of a source, is the last of the labels, and of its chain.
pub fn hold(
    starts: &mut [u16],
    keys: &mut [u16],
    count: usize,
    place: u16,
    line: &[u8],
    start: usize,
    size: usize,
)
    requires { (count < most_labels)
        × (length starts.old ≡ most_labels)
        × (length keys.old ≡ key_cells)
        × (start < farthest)
        × (size ≤ longest_label) }
    ensures { TakesWord (window line.now start size) place size count starts.old keys.old starts.new keys.new }
{
    let k = key(line, start, size as u16);
    let chain = chain_of(line, start, size);
    starts[count] = place;
    keys[count] = k as u16;
    keys[NUMBERS_FROM + count] = chain as u16;
    keys[LINKS_FROM + count] = keys[LASTS_FROM + chain];
    keys[LASTS_FROM + chain] = (count + 1) as u16;
}
