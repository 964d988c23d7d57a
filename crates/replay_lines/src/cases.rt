// The bytes of case lines, one after another: `L`, a blank, and the line's bytes in hex, or `-` for none.
ghost use Rattle.std.specs.Prelude.{◌≤◌, ◌<◌, IfOk};

use super::answers::answer;
use super::stops::Stop;
use std::io::{Read, Write};

// As much is read at once.
const PART: usize = 512;

// The longest line of a source, and some bytes more: a few cases pass it.
const LONGEST_LINE: usize = 33000;

// A lower-case hex digit's value.
fn digit(b: u8) -> Result<u8, Stop>
    ensures { IfOk result (λ d. d < 16) }
{
    match b {
        b'0'..=b'9' => Ok(b - b'0'),
        b'a'..=b'f' => Ok(b - b'a' + 10),
        _ => Err(Stop::Malformed),
    }
}

// The cases that are not answered yet: what is left of the part that was read last, and what the input holds.
#[derive(Drop)]
struct Cases<R: Read + Drop> {
    input: R,
    part: [u8; PART],
    at: usize,
    held: usize,
    ghost at_within: { at ≤ held },
    ghost held_within: { held ≤ 512 },
}

impl<R: Read + Drop> Cases<R> {
    fn of(input: R) -> Cases<R> {
        Cases {
            input,
            part: [0; PART],
            at: 0,
            held: 0,
        }
    }

    // The next byte; None: the cases end.
    fn next(&mut self) -> Result<Option<u8>, Stop> {
        if self.at == self.held {
            let Ok(n) = self.input.read(&mut self.part) else {
                return Err(Stop::Unreadable);
            };
            if n == 0 {
                return Ok(None);
            }
            self.at = 0;
            self.held = n;
        }
        let b = self.part[self.at];
        self.at += 1;
        Ok(Some(b))
    }

    // The next byte of a case.
    fn byte(&mut self) -> Result<u8, Stop> {
        self.next()?.ok_or(Stop::Unfinished)
    }

    // A byte that must be another.
    fn expect(&mut self, other: u8) -> Result<(), Stop> {
        if self.byte()? == other {
            Ok(())
        } else {
            Err(Stop::Malformed)
        }
    }

    // The byte that two digits spell, the first of which is read.
    fn spelt(&mut self, first: u8) -> Result<u8, Stop> {
        let high = digit(first)?;
        let low = digit(self.byte()?)?;
        Ok(high << 4 | low)
    }

    // A line, up to the LF of its case, in a room.
    fn line<'a>(&mut self, room: &'a mut [u8]) -> Result<&'a [u8], Stop> {
        let mut first = self.byte()?;
        if first == b'-' {
            self.expect(b'\n')?;
            return Ok(b"");
        }
        for held in 0..room.len() {
            room[held] = self.spelt(first)?;
            first = self.byte()?;
            if first == b'\n' {
                return Ok(&room[..held + 1]);
            }
        }
        self.spelt(first)?;
        Err(Stop::TooLong)
    }

    // A case's line, in a room; None: the cases end.
    fn case<'a>(&mut self, room: &'a mut [u8]) -> Result<Option<&'a [u8]>, Stop> {
        match self.next()? {
            None => Ok(None),
            Some(b'L') => {
                self.expect(b' ')?;
                Ok(Some(self.line(room)?))
            }
            Some(_) => Err(Stop::Malformed),
        }
    }
}

// Answers all cases. A proved loop has to end, so it counts its turns up to a number that no run reaches.
pub(crate) fn answer_all(input: impl Read + Drop, output: &mut impl Write) -> Result<(), Stop> {
    let mut cases = Cases::of(input);
    let mut room = [0; LONGEST_LINE];
    for _ in 0..u64::MAX {
        let Some(line) = cases.case(&mut room)? else {
            break;
        };
        answer(output, line)?;
    }
    Ok(())
}
