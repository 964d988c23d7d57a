// Cases of an image, printed or listed.
use super::fields::Fields;
use super::loans::{CELLS, cells, filled_room, marks};
use super::replies::room_changed;
use super::stops::Stop;
use image::NotPrinted;
use listing::NotListed;
use std::alloc::Global;
use std::io;
use std::io::Write;

// Which text of an image is asked for.
#[derive(Clone, Copy)]
pub(crate) enum Text {
    Printing,
    Listing,
}

// Refusal and length.
fn printed(out: &mut impl Write, m: &[u16], map: &[u8], room: &mut [u8]) -> io::Result<()> {
    match image::printing::print(m, map, room) {
        Ok(n) => write!(out, "0 {n}"),
        Err(NotPrinted::BadLoan) => write!(out, "1 0"),
        Err(NotPrinted::RoomShort) => write!(out, "2 0"),
    }
}

// Refusal, the address of what does not decode, and length.
fn listed(out: &mut impl Write, m: &[u16], map: &[u8], room: &mut [u8]) -> io::Result<()> {
    match listing::giving::list(m, map, room) {
        Ok(n) => write!(out, "0 0 {n}"),
        Err(NotListed::BadLoan) => write!(out, "1 0 0"),
        Err(NotListed::Undecoded(a)) => {
            let address = a.0;
            write!(out, "2 {address} 0")
        }
        Err(NotListed::TooLong) => write!(out, "3 0 0"),
    }
}

// `M MAPLEN FILL STEP N A1 V1 .. AN VN MAPFILL K B1 C1 .. BK CK ROOM ROOMFILL`: how the text was given, and the changed runs of the room.
pub(crate) fn image_case(
    alloc: Global,
    asked: Text,
    mut fields: Fields<'_>,
    out: &mut impl Write,
) -> Result<(), Stop> {
    let size = fields.at_most(CELLS)?;
    let length = fields.at_most(CELLS)?;
    let m = cells(alloc, &mut fields, size)?;
    let map = marks(alloc, &mut fields, length)?;
    let mut room = filled_room(alloc, &mut fields)?;
    fields.end()?;
    match asked {
        Text::Printing => printed(out, &m, &map, &mut room.bytes)?,
        Text::Listing => listed(out, &m, &map, &mut room.bytes)?,
    }
    room_changed(out, &room)?;
    Ok(())
}
