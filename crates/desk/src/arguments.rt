// FILE and M.
ghost use Rattle.std.specs.Prelude.{◌≡◌, ◌≤◌, length, IfOk, IfSome};
ghost use Rattle.desk.specs.Sizes.{size_of, largest_m};

use numerals::{Cursor, Radix, Read};
use std::env::FillError;
use std::io;
use std::rt::Env;

// The longest word of a command that Linux hands over, and more than the longest path that it takes.
pub const LONGEST_WORD: usize = 131072;

pub const LONGEST_PATH: usize = 4096;

pub const LARGEST_M: usize = 16384;

// The M that a word names. None: it is no decimal number from 1 to 16,384.
#[tactic(auto, unfolding(crate::specs::Sizes::size_of))]
pub fn size_of(word: &[u8]) -> Option<usize>
    ensures named { result ≡ size_of word.now }
    ensures within { IfSome result (λ m. m ≤ largest_m) }
{
    let Read { value: m, next } = (Cursor { at: 0 }).unsigned(word)?;
    let size = m.magnitude as usize;
    if next.at != word.len() || size == 0 || LARGEST_M < size {
        return None;
    }
    match m.radix {
        Radix::Decimal => Some(size),
        Radix::Hexadecimal => None,
    }
}

// A word of the call, in a room: empty where there is no such word, and where it is longer than the room.
pub fn argument<'a>(env: &impl Env, i: usize, room: &'a mut [u8]) -> &'a [u8]
    ensures { length result.now ≤ length room.old }
{
    let n = env.arg(i, room).unwrap_or(0);
    &room[..n]
}

// The M that is the second word. No word that the system hands over is longer than its room.
pub fn size(env: &impl Env) -> Option<usize>
    ensures { IfSome result (λ m. m ≤ largest_m) }
{
    let mut room = [0; LONGEST_WORD];
    size_of(argument(env, 2, &mut room))
}

// Linux's numbers of two errors.
const ENAMETOOLONG: i32 = 36;

const EINVAL: i32 = 22;

// FILE, which is the first word, in a room.
pub fn file<'a>(env: &impl Env, room: &'a mut [u8]) -> io::Result<&'a [u8]>
    ensures { IfOk result (λ path. length path.now ≤ length room.old) }
{
    match env.arg(1, room) {
        Ok(n) => Ok(&room[..n]),
        Err(FillError::TooLong) => Err(io::Error::from_raw_os_error(ENAMETOOLONG)),
        Err(FillError::NotPresent) => Err(io::Error::from_raw_os_error(EINVAL)),
    }
}

fn is_there(env: &impl Env, i: usize) -> bool {
    !matches!(env.arg(i, &mut [0]), Err(FillError::NotPresent))
}

// How many words the call has, the program's own name among them.
pub fn count(env: &impl Env) -> usize {
    (0..usize::MAX).take_while(|i| is_there(env, *i)).count()
}
