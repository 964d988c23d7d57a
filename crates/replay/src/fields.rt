// The fields of a case line, parted by single blanks.
ghost use Rattle.std.specs.Prelude.{◌<◌, IfOk};

use super::stops::Stop;
use std::alloc::Global;

// What is left of a line; None: its last field is read.
#[derive(Clone, Copy)]
pub(crate) struct Fields<'a> {
    rest: Option<&'a [u8]>,
}

// A lower-case hex digit's value.
fn digit(b: u8) -> Result<u8, Stop>
    ensures { IfOk result (λ d. d < 16) }
{
    match b {
        b'0'..=b'9' => Ok(b - b'0'),
        b'a'..=b'f' => Ok(b - b'a' + 10),
        _ => Err(Stop::Malformed),
    }
}

// The number that the decimal digits at a text's start spell, of at most 64 bits, and what stands behind them.
fn sum(text: &[u8]) -> Result<(u64, &[u8]), Stop> {
    let mut n: u64 = 0;
    for i in 0..text.len() {
        let d = match text[i] {
            b'0'..=b'9' => text[i] - b'0',
            _ => return Ok((n, &text[i..])),
        };
        let tens = n.checked_mul(10).ok_or(Stop::Malformed)?;
        n = tens.checked_add(u64::from(d)).ok_or(Stop::Malformed)?;
    }
    Ok((n, b""))
}

// The bytes that hex digits at a text's start spell, up to a blank, into a row; how many, and what stands behind them.
fn spell<'a>(text: &'a [u8], row: &mut [u8]) -> Result<(usize, &'a [u8]), Stop> {
    let mut rest = text;
    for held in 0..row.len() {
        match rest {
            [b' ', ..] => return Ok((held, rest)),
            [high, low, more @ ..] => {
                row[held] = digit(*high)? << 4 | digit(*low)?;
                rest = more;
            }
            _ => return Err(Stop::Malformed),
        }
    }
    Ok((row.len(), rest))
}

impl<'a> Fields<'a> {
    pub(crate) fn of(line: &'a [u8]) -> Fields<'a> {
        Fields { rest: Some(line) }
    }

    // The next field.
    pub(crate) fn next(&mut self) -> Result<&'a [u8], Stop> {
        let rest = self.rest.ok_or(Stop::Malformed)?;
        match rest.iter().position(|b| *b == b' ') {
            Some(i) => {
                self.rest = Some(&rest[i + 1..]);
                Ok(&rest[..i])
            }
            None => {
                self.rest = None;
                Ok(rest)
            }
        }
    }

    // That there is no field more.
    pub(crate) fn end(self) -> Result<(), Stop> {
        match self.rest {
            Some(_) => Err(Stop::Malformed),
            None => Ok(()),
        }
    }

    // Goes on behind a field, which a blank or the line's end must follow.
    fn go_on(&mut self, behind: &'a [u8]) -> Result<(), Stop> {
        match behind {
            [] => self.rest = None,
            [b' ', rest @ ..] => self.rest = Some(rest),
            _ => return Err(Stop::Malformed),
        }
        Ok(())
    }

    // A plain decimal number without leading zeros, of at most 64 bits.
    fn decimal(&mut self) -> Result<u64, Stop> {
        let text = self.rest.ok_or(Stop::Malformed)?;
        match text {
            [b'0', b'0'..=b'9', ..] => return Err(Stop::Malformed),
            [b'0'..=b'9', ..] => {}
            _ => return Err(Stop::Malformed),
        }
        let (n, behind) = sum(text)?;
        self.go_on(behind)?;
        Ok(n)
    }

    pub(crate) fn byte(&mut self) -> Result<u8, Stop> {
        Ok(self.decimal()?.try_into()?)
    }

    pub(crate) fn word(&mut self) -> Result<u16, Stop> {
        Ok(self.decimal()?.try_into()?)
    }

    pub(crate) fn budget(&mut self) -> Result<u32, Stop> {
        Ok(self.decimal()?.try_into()?)
    }

    pub(crate) fn number(&mut self) -> Result<usize, Stop> {
        Ok(self.decimal()?.try_into()?)
    }

    pub(crate) fn at_most(&mut self, most: usize) -> Result<usize, Stop> {
        let n = self.number()?;
        if n <= most {
            Ok(n)
        } else {
            Err(Stop::Malformed)
        }
    }

    // A row of bytes in hex, `-` if it is empty.
    pub(crate) fn bytes(&mut self, alloc: Global) -> Result<Vec<u8>, Stop> {
        let text = self.rest.ok_or(Stop::Malformed)?;
        if let [b'-', behind @ ..] = text {
            self.go_on(behind)?;
            return Ok(Vec::new(alloc));
        }
        let mut bytes = vec![in alloc; 0; text.len() / 2]?;
        let (count, behind) = spell(text, &mut bytes)?;
        if count == 0 {
            return Err(Stop::Malformed);
        }
        self.go_on(behind)?;
        bytes.truncate(count);
        Ok(bytes)
    }
}
