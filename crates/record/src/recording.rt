// Writing a record (specs/Recording.antt).
ghost use Rattle.std.specs.Prelude.{◌≡◌, length};
ghost use Rattle.record.specs.Record.{record_text};
ghost use Rattle.record.specs.Recording.{leaves, fitted, recorded};

use super::NotRecorded;
use super::lines::write;
use machine::Ran;
use ports::output::put_text;

// Room for the longest record. The `ensures` gives the length, which lending needs.
fn longest() -> [u8; 400]
    ensures { 400 ≡ length result }
{
    [0; 400]
}

// A record that fits is written at the head of the room.
fn put(
    room: &mut [u8],
    stop: u8,
    steps: u32,
    r: [u16; 16],
    taken: u32,
    written: u32,
) -> Result<usize, NotRecorded>
    ensures { leaves result room.new ≡ fitted (record_text stop steps r taken written) room.old }
{
    let mut text = longest();
    let end = write(&mut text, stop, steps, r, taken, written);
    put_text(room, 0, &text[..end]).map_err(|_| NotRecorded::RoomShort)
}

// Writes a run's record at the head of a room, if there is place for all of it, and answers its length.
pub fn write_record(ran: Ran, room: &mut [u8]) -> Result<usize, NotRecorded>
    ensures { leaves result room.new ≡ recorded ran room.old }
{
    let registers = ran.registers;
    let taken = u32::try_from(registers.taken).map_err(|_| NotRecorded::TooFar)?;
    let written = u32::try_from(registers.written).map_err(|_| NotRecorded::TooFar)?;
    put(room, ran.stop, ran.count, registers.r, taken, written)
}
