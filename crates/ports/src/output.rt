// What is written to the output (specs/Output.antt).
ghost use Rattle.std.specs.Prelude.{◌≡◌, true, map, ◌+◌, ◌≤◌, length, take, drop};
ghost use Rattle.ports.specs.Overwriting.{overwrite};
ghost use Rattle.ports.specs.Input.{passed};
ghost use Rattle.ports.specs.Output.{low_byte, string_of, text_put, byte_put, number_put, string_put};

use super::has_room;
use codes::stops::{MEMORY_END, OUTPUT_SHORT};

// WRCHAR: the low byte, and the position after it; 9 where there is no room.
pub fn put_byte(out: &mut [u8], at: usize, x: u16) -> Result<usize, u8>
    ensures { passed result out.new ≡ byte_put out.old at x }
{
    if out.len() <= at {
        return Err(OUTPUT_SHORT);
    }
    out[at] = (x % 256) as u8;
    Ok(at + 1)
}

// A text, if there is room for all of it, and the position after it; else 9.
pub fn put_text(out: &mut [u8], at: usize, text: &[u8]) -> Result<usize, u8>
    ensures { passed result out.new ≡ text_put out.old at text.now }
{
    if !has_room(out.len(), at, text.len()) {
        return Err(OUTPUT_SHORT);
    }
    let next = at + text.len();
    out[at..next].copy_from_slice(text);
    Ok(next)
}

// WRINT: the signed decimal, by the same answers.
pub fn put_number(out: &mut [u8], at: usize, x: u16) -> Result<usize, u8>
    ensures { passed result out.new ≡ number_put out.old at x }
{
    let text = numerals::writing::signed_decimal(x);
    put_text(out, at, &text.bytes[text.start..])
}

// Whether none of eight cells from a place on is 0. `|` looks at all eight with no branch between, so they are tested as one vector.
fn all_full(m: &[u16], i: usize) -> bool
    requires { i + 8 ≤ length m.now }
    ensures { result ≡ true → length (string_of (drop i m.now)) ≡ 8 + length (string_of (drop (i + 8) m.now)) }
{
    !((m[i] == 0)
        | (m[i + 1] == 0)
        | (m[i + 2] == 0)
        | (m[i + 3] == 0)
        | (m[i + 4] == 0)
        | (m[i + 5] == 0)
        | (m[i + 6] == 0)
        | (m[i + 7] == 0))
}

// Passes eight cells at a time while none of them is 0. An index: it begins where a string does, which may lie past the end.
fn past_full(m: &[u16], from: usize) -> usize
    ensures { result + length (string_of (drop result m.now)) ≡ from + length (string_of (drop from m.now)) }
{
    let mut i = from;
    while i < m.len() {
        if m.len() - i < 8 {
            return i;
        }
        if !all_full(m, i) {
            return i;
        }
        i += 8;
    }
    i
}

// The place of the first cell that is 0, from a place on, and the end of memory where there is none. An index: it goes on where
// `past_full` stopped, which may lie past the end.
fn zero_at(m: &[u16], from: usize) -> usize
    ensures { result ≡ from + length (string_of (drop from m.now)) }
{
    let mut i = past_full(m, from);
    while i < m.len() {
        if m[i] == 0 {
            return i;
        }
        i += 1;
    }
    i
}

// The low bytes of n cells from `from` on.
// An index: over a slice of the cells a WRSTR takes 22 instructions more, and of what a zip over iter_mut writes nothing is known.
fn print(out: &mut [u8], at: usize, m: &[u16], from: usize, n: usize)
    requires { (at + n ≤ length out.old) × (from + n ≤ length m.now) }
    ensures { out.new ≡ overwrite out.old at (map low_byte (take n (drop from m.now))) }
{
    for k in 0..n {
        out[at + k] = (m[from + k] % 256) as u8;
    }
}

// WRSTR: the low bytes of the cells from a cell on, up to the first that is 0, and the position after them; 5 where none is 0, else 9 where
// there is no room.
pub fn put_string(out: &mut [u8], at: usize, m: &[u16], from: u16) -> Result<usize, u8>
    ensures { passed result out.new ≡ string_put out.old at m.now from }
{
    let first = from as usize;
    let end = zero_at(m, first);
    if m.len() <= end {
        return Err(MEMORY_END);
    }
    let n = end - first;
    if !has_room(out.len(), at, n) {
        return Err(OUTPUT_SHORT);
    }
    print(out, at, m, first, n);
    Ok(at + n)
}
