// A name among the labels (specs/Inner/Labels.antt): only those on the name's chain are looked at, and of these a byte is read only where
// length and first letter are the name's.
ghost use Rattle.std.specs.Prelude.{◌≡◌, ◌+◌, ◌-◌, ◌≤◌, ◌<◌, length, get_or};
ghost use Rattle.names.specs.Names.{same};
ghost use Rattle.labels.specs.Inner.Labels.{window, key_of, word_by, labels_before, words, farthest, InCell};

use super::chains::{LASTS_FROM, LINKS_FROM, byte, cell, chain_of, key, onward};

// Whether two names of one length that begin alike are the same: n bytes of s at a, and of t at b.
fn same_rest(s: &[u8], a: usize, t: &[u8], b: usize, n: usize) -> bool
    requires { (a < farthest) × (b < farthest) × (n < farthest) }
    ensures { result ≡ same (window s.now (a + 1) (n - 1)) (window t.now (b + 1) (n - 1)) }
{
    for i in 1..n {
        if byte(s, a + i) != byte(t, b + i) {
            return false;
        }
    }
    true
}

// Whether the j-th label is the name of the line that has a key.
fn is_named(
    s: &[u8],
    starts: &[u16],
    keys: &[u16],
    j: usize,
    line: &[u8],
    start: usize,
    size: usize,
    wanted: usize,
) -> bool
    requires { (start < farthest)
        × InCell size
        × (j < length starts.now)
        × (j < length keys.now)
        × (wanted ≡ key_of (window line.now start size)) }
    ensures { result ≡ same (word_by s.now (get_or starts.now j 0) (get_or keys.now j 0)) (window line.now start size) }
{
    usize::from(keys[j]) == wanted && same_rest(s, usize::from(starts[j]), line, start, size)
}

// The place of a name of the line among the labels of the source; how many there are, if it is none of them.
pub fn find(
    s: &[u8],
    starts: &[u16],
    keys: &[u16],
    count: usize,
    line: &[u8],
    start: usize,
    size: usize,
) -> usize
    requires { (start < farthest) × InCell size × (count ≤ length starts.now) × (count ≤ length keys.now) }
    ensures { result ≡ labels_before (window line.now start size) (words s.now starts.now keys.now count) }
{
    let wanted = key(line, start, size as u16);
    let chain = chain_of(line, start, size);
    let mut found = count;
    // the last label of the chain first: the first of like ones is the last that is met; a walk along links, which no iterator makes
    let mut named = onward(keys, chain, count, cell(keys, LASTS_FROM + chain));
    while 0 < named {
        let j = named - 1;
        if is_named(s, starts, keys, j, line, start, size, wanted) {
            found = j;
        }
        named = onward(keys, chain, j, cell(keys, LINKS_FROM + j));
    }
    found
}
