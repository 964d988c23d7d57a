// What is taken of the input (specs/Input.antt).
ghost use Rattle.std.specs.Prelude.{◌≡◌, [], ◌∷◌, ◌++◌, ◌+◌, ◌≤◌, length};
ghost use Rattle.ports.specs.Overwriting.{overwrite};
ghost use Rattle.ports.specs.Input.{line_of, line_at, after_line, byte_taken, number_taken, passed, string_taken};

use super::{Taken, has_room};
use codes::stops::{INPUT_END, MEMORY_END};

// The length of the line that a text begins with: up to its LF, or all of it.
fn line_length(text: &[u8]) -> usize
    ensures { result ≡ length (line_of text.now) }
{
    text.iter().position(|b| *b == b'\n').unwrap_or(text.len())
}

// The line at a position, its LF not kept.
fn line_at(input: &[u8], at: usize) -> &[u8]
    requires { at ≤ length input.now }
    ensures { result.now ≡ line_at input.now at }
{
    let rest = &input[at..];
    &rest[..line_length(rest)]
}

// The position after a line that ends at `end`, its LF taken.
fn after(input: &[u8], at: usize, end: usize) -> usize
    requires { end ≡ at + length (line_at input.now at) }
    ensures { result ≡ after_line input.now at }
{
    if end < input.len() { end + 1 } else { end }
}

// INCHAR: the byte at the position.
#[tactic(auto, unfolding(crate::specs::Input::byte_taken))]
pub fn take_byte(input: &[u8], at: usize) -> Result<Taken, u8>
    ensures { result ≡ byte_taken input.now at }
{
    let byte = input.get(at).copied().ok_or(INPUT_END)?;
    Ok(Taken {
        value: u16::from(byte),
        after: at + 1,
    })
}

// ININT: the number that the line is, or 0.
pub fn take_number(input: &[u8], at: usize) -> Result<Taken, u8>
    ensures { result ≡ number_taken input.now at }
{
    if input.len() <= at {
        return Err(INPUT_END);
    }
    let line = line_at(input, at);
    let value = numerals::reading::line_number(line);
    Ok(Taken {
        value,
        after: after(input, at, at + line.len()),
    })
}

// A text's bytes from a cell on, and a 0 cell. An index: of what a zip over iter_mut writes nothing is known.
fn fill(m: &mut [u16], to: usize, text: &[u8])
    requires { to + length text.now + 1 ≤ length m.old }
    ensures { m.new ≡ overwrite m.old to (text.now ++ (0 ∷ [])) }
{
    for k in 0..text.len() {
        m[to + k] = u16::from(text[k]);
    }
    m[to + text.len()] = 0;
}

// INSTR: the line's bytes and a 0 cell, from a cell on, and the position after the line; 8 at the input's end, 5 where memory ends.
pub fn take_string(m: &mut [u16], to: u16, input: &[u8], at: usize) -> Result<usize, u8>
    ensures { passed result m.new ≡ string_taken m.old to input.now at }
{
    if input.len() <= at {
        return Err(INPUT_END);
    }
    let line = line_at(input, at);
    let first = to as usize;
    if !has_room(m.len(), first, line.len() + 1) {
        return Err(MEMORY_END);
    }
    fill(m, first, line);
    Ok(after(input, at, at + line.len()))
}
