// The cases of the input, each to its reply.
use super::assembling::source_case;
use super::fields::Fields;
use super::images::{Text, image_case};
use super::instructions::{decode_case, encode_case};
use super::machines::{Asked, machine_case};
use super::stops::{Stop, Stopped};
use std::alloc::Global;
use std::io::{BufRead, BufReader, BufWriter, ErrorKind, Read, Write};

// The longest line, with its LF.
const LONGEST_LINE: u64 = 1048576;

// The next line, without its LF; None: the input ends.
fn next_line<'a>(
    input: &mut (impl BufRead + Drop),
    line: &'a mut Vec<u8>,
) -> Result<Option<&'a [u8]>, Stop> {
    line.clear();
    if let Err(e) = input.take(LONGEST_LINE).read_until(b'\n', line) {
        return match e.kind() {
            ErrorKind::OutOfMemory => Err(Stop::OutOfMemory),
            _ => Err(Stop::Unreadable),
        };
    }
    match line.as_slice() {
        [] => Ok(None),
        [case @ .., b'\n'] => Ok(Some(case)),
        part if (part.len() as u64) < LONGEST_LINE => Err(Stop::Unfinished),
        _ => Err(Stop::TooLong),
    }
}

// A case to its reply.
fn answer(alloc: Global, case: &[u8], out: &mut impl Write) -> Result<(), Stop> {
    let mut fields = Fields::of(case);
    match fields.next()? {
        b"A" => source_case(alloc, fields, out)?,
        b"D" => decode_case(alloc, fields, out)?,
        b"E" => encode_case(fields, out)?,
        b"G" => image_case(alloc, Text::Listing, fields, out)?,
        b"P" => image_case(alloc, Text::Printing, fields, out)?,
        b"R" => {
            let budget = fields.budget()?;
            machine_case(alloc, Asked::Run(budget), fields, out)?
        }
        b"S" => machine_case(alloc, Asked::Step, fields, out)?,
        _ => return Err(Stop::Malformed),
    }
    writeln!(out)?;
    out.flush()?;
    Ok(())
}

// Answers all cases. A proved loop has to end, so it counts its lines up to a number that no input reaches.
pub(crate) fn answer_all(
    alloc: Global,
    input: impl Read + Drop,
    output: impl Write + Drop,
) -> Result<(), Stopped> {
    let Ok(mut input) = BufReader::new(alloc, input) else {
        return Err(Stopped {
            line: 1,
            why: Stop::OutOfMemory,
        });
    };
    let Ok(mut replies) = BufWriter::new(alloc, output) else {
        return Err(Stopped {
            line: 1,
            why: Stop::OutOfMemory,
        });
    };
    // A room that grew with its lines would leave holes behind that no other room fits into.
    let Ok(mut room) = Vec::with_capacity(alloc, LONGEST_LINE as usize) else {
        return Err(Stopped {
            line: 1,
            why: Stop::OutOfMemory,
        });
    };
    for line in 1..u64::MAX {
        let answered = match next_line(&mut input, &mut room) {
            Ok(Some(case)) => answer(alloc, case, &mut replies),
            Ok(None) => break,
            Err(why) => Err(why),
        };
        if let Err(why) = answered {
            // What could not be written is not tried again, as a drop of the writer would.
            let _ = replies.into_parts();
            return Err(Stopped { line, why });
        }
    }
    Ok(())
}
