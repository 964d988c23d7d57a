// A line's own label: too long or the 513th, known already, or one more that waits.
ghost use Rattle.std.specs.Prelude.{◌≡◌, List, ℕ, ◌+◌, ◌≤◌, length};
ghost use Rattle.codes.specs.Limits.{most_labels, longest_source};
ghost use Rattle.labels.specs.Inner.Labels.{Part, key_cells};
ghost use Rattle.placing.specs.Inner.State.{Fair, FairDid, TellsLabel, place_in};

use super::Counters;
use codes::limits::{LONGEST_LABEL, MOST_LABELS};
use codes::refusals::Refusal;
use labels::finding::find;
use labels::holding::hold;
use values::Name;

pub(crate) fn declare(
    s: &[u8],
    from: usize,
    line: &[u8],
    starts: &mut [u16],
    keys: &mut [u16],
    c: Counters,
    n: Name,
) -> Result<Counters, Refusal>
    requires { Fair c
        × (length starts.old ≡ most_labels)
        × (length keys.old ≡ key_cells)
        × (n.start ≤ n.end)
        × (n.end ≤ length line.now)
        × (from + n.end ≤ longest_source)
        × Part s.now from line.now }
    ensures { FairDid result
        × ((k : ℕ) (vs ms : List ℕ) → length vs ≡ most_labels → TellsLabel line.now n
        (place_in s.now starts.old keys.old vs ms c)
        (place_in s.now starts.new keys.new vs ms) k result) }
{
    let start = n.start;
    let size = n.end - start;
    if LONGEST_LABEL < size {
        return Err(Refusal::LabelPastLimits);
    }
    let at = c.at;
    let bound = c.bound;
    let waiting = c.waiting;
    let count = bound + waiting;
    if MOST_LABELS <= count {
        return Err(Refusal::LabelPastLimits);
    }
    if find(s, starts, keys, count, line, start, size) < count {
        return Err(Refusal::LabelAgain);
    }
    hold(
        starts,
        keys,
        count,
        (from + start) as u16,
        line,
        start,
        size,
    );
    Ok(Counters {
        at,
        bound,
        waiting: waiting + 1,
    })
}
