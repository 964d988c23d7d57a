// Standard input.
ghost use Rattle.std.specs.Prelude.{◌≤◌, length, IfOk};

use super::failures::Failure;
use std::io::Read;

// "An input of at most 65,536 bytes": one byte more, since an input that fills the room is too long.
pub(crate) const ROOM: usize = 65537;

// Reads standard input to its end, into as much of a room as the largest input and one byte more fill.
pub(crate) fn read<'a>(
    input: &mut impl Read,
    room: &'a mut [u8],
) -> Result<&'a [u8], Failure<'static>>
    ensures { IfOk result (λ given. length given.now ≤ length room.old) }
{
    let size = room.len().min(ROOM);
    let given = desk::source::load(input, &mut room[..size]).map_err(|error| Failure::System(
        b"run: input",
        error,
    ))?;
    if ROOM <= given.len() {
        return Err(Failure::InputTooLong);
    }
    Ok(given)
}
