// Keys and chains of names (specs/Inner/Labels.antt).
ghost use Rattle.std.specs.Prelude.{◌≡◌, ◌<◌, get_or};
ghost use Rattle.labels.specs.Inner.Labels as Labels;
ghost use Rattle.labels.specs.Inner.Labels.{window, key_of, chain_of, farthest, InCell};

use codes::limits::MOST_LABELS;

// How many chains there are.
const CHAINS: usize = 2 * MOST_LABELS;

// Behind the keys: the chain of each label, the label before it there, and the last label of each chain.
pub(crate) const NUMBERS_FROM: usize = MOST_LABELS;

pub(crate) const LINKS_FROM: usize = 2 * MOST_LABELS;

pub(crate) const LASTS_FROM: usize = 3 * MOST_LABELS;

// The cells of a row of keys.
pub const KEY_CELLS: usize = LASTS_FROM + CHAINS;

// The byte at a place, 0 past the end.
pub(crate) fn byte(s: &[u8], i: usize) -> u8
    ensures { result ≡ get_or s.now i 0 }
{
    s.get(i).copied().unwrap_or(0)
}

// The cell at a place, 0 past the end.
pub(crate) fn cell(row: &[u16], i: usize) -> usize
    ensures { result ≡ get_or row.now i 0 }
{
    usize::from(row.get(i).copied().unwrap_or(0))
}

// A name's length and first letter.
pub(crate) fn key(s: &[u8], a: usize, n: u16) -> usize
    ensures { result ≡ key_of (window s.now a n) }
{
    if n == 0 {
        return 0;
    }
    (usize::from(n) - 1) * 256 + usize::from(byte(s, a)) + 1
}

// The chain that a name is on, by its bytes from the last on.
pub(crate) fn chain_of(s: &[u8], a: usize, n: usize) -> usize
    requires { (a < farthest) × InCell n }
    ensures { result ≡ chain_of (window s.now a n) }
{
    let mut chain = 0;
    for i in (0..n).rev() {
        chain = (37 * chain + usize::from(byte(s, a + i))) % CHAINS;
    }
    chain
}

// The label that is named, by its number and 1, if it is one of the first n and on this chain; else 0.
pub(crate) fn onward(keys: &[u16], chain: usize, n: usize, named: usize) -> usize
    requires { InCell named }
    ensures { result ≡ Labels.onward keys.now chain n named }
{
    if named != 0 && named <= n && cell(keys, NUMBERS_FROM + (named - 1)) == chain {
        return named;
    }
    0
}
