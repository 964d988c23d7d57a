// An image on standard output.
use super::failures::Failure;
use std::io::Write;

// The largest image's text: 35 bytes, and 22 a cell.
const ROOM: usize = 360483;

// The image of a memory and a map.
pub(crate) fn print_image(
    output: &mut impl Write,
    memory: &[u16],
    map: &[u8],
) -> Result<(), Failure<'static>> {
    let mut room = [0; ROOM];
    let length = image::printing::print(memory, map, &mut room)?;
    let text = room.get(..length).ok_or(Failure::NoImage)?;
    output.write_all(text)?;
    Ok(())
}
