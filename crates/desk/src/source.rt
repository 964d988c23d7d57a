// The bytes of a file, or of standard input.
ghost use Rattle.std.specs.Prelude.{◌≤◌, length, IfOk};

use std::io::Read;
use std::rt::Files;
use std::{fs, io, str};

// A room for a source, and one byte more: a file that fills it is too long, however long it is.
pub const ROOM: usize = 32769;

// Reads until the input ends or the room is full. Each turn but the last holds a byte more; how many is the reader's, so no `for`.
pub fn load<'a>(input: &mut impl Read, room: &'a mut [u8]) -> io::Result<&'a [u8]>
    ensures { IfOk result (λ text. length text.now ≤ length room.old) }
{
    let mut held = 0;
    while held < room.len() {
        match input.read(&mut room[held..])? {
            0 => break,
            n => held += n,
        }
    }
    Ok(&room[..held])
}

// Reads the file at a path. A path of this library is text: one that is none is refused as a name that no file has.
pub fn read<'a>(files: &impl Files, path: &[u8], room: &'a mut [u8]) -> io::Result<&'a [u8]>
    ensures { IfOk result (λ text. length text.now ≤ length room.old) }
{
    let Ok(path) = str::from_utf8(path) else {
        return Err(io::Error::from(io::ErrorKind::InvalidFilename));
    };
    let mut file = fs::open(files, path)?;
    load(&mut file, room)
}
