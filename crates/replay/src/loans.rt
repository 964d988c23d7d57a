// What a case lends: memory, map and room.
use super::fields::Fields;
use super::stops::Stop;
use std::alloc::Global;

// The largest memory and map of the format, larger than any that machine or assembler takes.
pub(crate) const CELLS: usize = 65600;

// The largest room of the format.
const LARGEST_ROOM: usize = 2000000;

// `FILL STEP`: cell i holds FILL + i*STEP, modulo 65536.
pub(crate) fn filled(
    alloc: Global,
    fields: &mut Fields<'_>,
    size: usize,
) -> Result<Vec<u16>, Stop> {
    let mut value = fields.word()?;
    let step = fields.word()?;
    let mut cells = vec![in alloc; value; size]?;
    for cell in cells.iter_mut() {
        *cell = value;
        value = value.wrapping_add(step);
    }
    Ok(cells)
}

// `FILL STEP N A1 V1 .. AN VN`: a memory that is filled, then overwritten.
pub(crate) fn cells(alloc: Global, fields: &mut Fields<'_>, size: usize) -> Result<Vec<u16>, Stop> {
    let mut cells = filled(alloc, fields, size)?;
    for _ in 0..fields.at_most(CELLS)? {
        let address = fields.number()?;
        *cells.get_mut(address).ok_or(Stop::Malformed)? = fields.word()?;
    }
    Ok(cells)
}

// `MAPFILL K B1 C1 .. BK CK`: the same of a map.
pub(crate) fn marks(alloc: Global, fields: &mut Fields<'_>, size: usize) -> Result<Vec<u8>, Stop> {
    let mut map = vec![in alloc; fields.byte()?; size]?;
    for _ in 0..fields.at_most(CELLS)? {
        let address = fields.number()?;
        *map.get_mut(address).ok_or(Stop::Malformed)? = fields.byte()?;
    }
    Ok(map)
}

// A room, and the byte that it is filled with.
#[derive(Drop)]
pub(crate) struct Room {
    pub bytes: Vec<u8>,
    pub fill: u8,
}

// `SIZE FILL`.
pub(crate) fn filled_room(alloc: Global, fields: &mut Fields<'_>) -> Result<Room, Stop> {
    let size = fields.at_most(LARGEST_ROOM)?;
    let fill = fields.byte()?;
    let bytes = vec![in alloc; fill; size]?;
    Ok(Room { bytes, fill })
}
