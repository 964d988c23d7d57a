// What was changed in what was lent, behind the first numbers of a reply.
ghost use Rattle.std.specs.Prelude.{◌<◌};

use super::loans::Room;
use std::io;
use std::io::Write;

// How many cells differ from before, and each with its address. Behind the last of them nothing is looked at again.
pub(crate) fn cells_changed(out: &mut impl Write, before: &[u16], cells: &[u16]) -> io::Result<()> {
    let count = before.iter().zip(cells).filter(|(b, c)| b != c).count();
    write!(out, " {count}")?;
    let changed = before.iter().zip(cells).enumerate();
    for (i, (_, c)) in changed.filter(|(_, (b, c))| b != c).take(count) {
        write!(out, " {i} {c}")?;
    }
    Ok(())
}

// The same of marks that are not one.
pub(crate) fn marks_but(out: &mut impl Write, mark: u8, map: &[u8]) -> io::Result<()> {
    let count = map.iter().filter(|m| **m != mark).count();
    write!(out, " {count}")?;
    let marked = map.iter().enumerate();
    for (i, m) in marked.filter(|(_, m)| **m != mark).take(count) {
        write!(out, " {i} {m}")?;
    }
    Ok(())
}

// Whether a byte of the room that is not as it was filled is the first of its run. Before the first place there is no byte.
fn begins(room: &Room, i: usize) -> bool {
    let before = room.bytes.get(i.wrapping_sub(1));
    !before.is_some_and(|b| *b != room.fill)
}

fn hex_digit(d: u8) -> u8
    requires { d < 16 }
{
    if d < 10 { b'0' + d } else { b'a' + (d - 10) }
}

// A run of bytes in hex, so many at a time.
fn hex(out: &mut impl Write, run: &[u8]) -> io::Result<()> {
    for part in run.chunks(32) {
        let mut digits = [0u8; 64];
        for (pair, b) in digits.chunks_mut(2).zip(part) {
            if let [high, low] = pair {
                *high = hex_digit(*b >> 4);
                *low = hex_digit(*b % 16);
            }
        }
        let length = part.len().saturating_mul(2).min(64);
        out.write_all(&digits[..length])?;
    }
    Ok(())
}

// How many runs of such bytes there are, and each with its start, in hex.
pub(crate) fn room_changed(out: &mut impl Write, room: &Room) -> io::Result<()> {
    let bytes = room.bytes.iter().enumerate();
    let count = bytes
        .filter(|(i, b)| **b != room.fill && begins(room, *i))
        .count();
    write!(out, " {count}")?;
    let bytes = room.bytes.iter().enumerate();
    let starts = bytes.filter(|(i, b)| **b != room.fill && begins(room, *i));
    for (i, _) in starts.take(count) {
        write!(out, " {i} ")?;
        let from = room.bytes.get(i..).unwrap_or(b"");
        let run = match from.iter().position(|b| *b == room.fill) {
            Some(end) => &from[..end],
            None => from,
        };
        hex(out, run)?;
    }
    Ok(())
}
