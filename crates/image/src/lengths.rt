// How long the text of an image is, found before anything is written (specs/Image.antt).
ghost use Rattle.std.specs.Prelude.{◌≡◌, ◌≤◌, length};
ghost use Rattle.codes.specs.Limits.{most_cells};
ghost use Rattle.numerals.specs.Writing.{decimal};
ghost use Rattle.image.specs.Image.{claimed, image_text};
ghost use Rattle.image.specs.Inner.Pieces.{piece, cells_text};

use codes::marks::{FREE, RESERVED};

fn decimal_length(n: u32) -> usize
    ensures { result ≡ length (decimal n) }
{
    11 - numerals::writing::unsigned_decimal(n).start
}

// A cell's line with its LF, nothing for a free cell: `code` and `data` have as many letters, and `,reserved,0` is always the same.
fn cell_length(address: u32, mark: u8, value: u16) -> usize
    ensures { result ≡ length (piece address mark value) }
{
    if mark == FREE {
        return 0;
    }
    if mark == RESERVED {
        return 17 + decimal_length(address);
    }
    12 + decimal_length(address) + decimal_length(value as u32)
}

// How many cells a map marks.
pub(crate) fn claimed_in(map: &[u8]) -> usize
    ensures { result ≡ claimed map.now }
{
    let mut count = 0;
    // no `filter(..).count()`: twice as long, and more where claimed and free cells take turns
    for mark in map {
        if *mark != FREE {
            count += 1;
        }
    }
    count
}

// The lines of all cells.
fn cells_length(memory: &[u16], map: &[u8]) -> usize
    requires { (length map.now ≡ length memory.now) × (length memory.now ≤ most_cells) }
    ensures { result ≡ length (cells_text memory.now map.now) }
{
    let mut n: usize = 0;
    // over the addresses: each is printed, and names a cell of both lists
    for address in 0..map.len() {
        n += cell_length(address as u32, map[address], memory[address]);
    }
    n
}

// The whole text: the first three lines are two decimals and 25 bytes more.
pub(crate) fn text_length(memory: &[u16], map: &[u8]) -> usize
    requires { (length map.now ≡ length memory.now) × (length memory.now ≤ most_cells) }
    ensures { result ≡ length (image_text memory.now map.now) }
{
    let size = decimal_length(memory.len() as u32);
    let number = decimal_length(claimed_in(map) as u32);
    25 + size + number + cells_length(memory, map)
}
