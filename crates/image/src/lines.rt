// The text of an image, written into a room that has place for it (specs/Image.antt). Each function answers the place after what it wrote.
ghost use Rattle.std.specs.Prelude.{◌≡◌, ◌+◌, ◌≤◌, length};
ghost use Rattle.codes.specs.Limits.{most_cells};
ghost use Rattle.ports.specs.Overwriting.{overwrite};
ghost use Rattle.texts.specs.Lines.{text_of};
ghost use Rattle.texts.specs.Inner.Wrote.{Wrote};
ghost use Rattle.image.specs.Image.{head_lines, image_text};
ghost use Rattle.image.specs.Inner.Pieces.{kind_and_value, piece, cells_text};

use super::lengths::claimed_in;
use codes::marks::{CODE, FREE, RESERVED};
use texts::writing::{field, piece};

// What stands behind the address in a cell's line.
fn kind_and_value(room: &mut [u8], at: usize, mark: u8, value: u16) -> usize
    requires { at + length (kind_and_value mark value) ≤ length room.old }
    ensures { Wrote room.old at (kind_and_value mark value) room.new result }
{
    if mark == RESERVED {
        return piece(room, at, b",reserved,0");
    }
    if mark == CODE {
        return field(room, at, b",code,", value as u32);
    }
    field(room, at, b",data,", value as u32)
}

// A cell's line with its LF; nothing for a free cell.
fn cell(room: &mut [u8], at: usize, address: u32, mark: u8, value: u16) -> usize
    requires { at + length (piece address mark value) ≤ length room.old }
    ensures { Wrote room.old at (piece address mark value) room.new result }
{
    if mark == FREE {
        return at;
    }
    let kind = field(room, at, b"cell=", address);
    let end = kind_and_value(room, kind, mark, value);
    room[end] = b'\n';
    end + 1
}

// The lines of all cells.
fn cells(room: &mut [u8], from: usize, memory: &[u16], map: &[u8])
    requires { (length map.now ≡ length memory.now)
        × (length memory.now ≤ most_cells)
        × (from + length (cells_text memory.now map.now) ≤ length room.old) }
    ensures { room.new ≡ overwrite room.old from (cells_text memory.now map.now) }
{
    let mut at = from;
    // over the addresses: each is printed, and names a cell of both lists
    for address in 0..map.len() {
        at = cell(room, at, address as u32, map[address], memory[address]);
    }
}

// The lines before them.
fn head(room: &mut [u8], size: u32, number: u32) -> usize
    requires { length (text_of (head_lines size number)) ≤ length room.old }
    ensures { Wrote room.old 0 (text_of (head_lines size number)) room.new result }
{
    let line = field(room, 0, b"version=1\nsize=", size);
    let end = field(room, line, b"\nclaimed=", number);
    room[end] = b'\n';
    end + 1
}

// The whole text.
pub(crate) fn write(room: &mut [u8], memory: &[u16], map: &[u8])
    requires { (length map.now ≡ length memory.now)
        × (length memory.now ≤ most_cells)
        × (length (image_text memory.now map.now) ≤ length room.old) }
    ensures { room.new ≡ overwrite room.old 0 (image_text memory.now map.now) }
{
    let number = claimed_in(map) as u32;
    let at = head(room, memory.len() as u32, number);
    cells(room, at, memory, map);
}
