// A cell of a lent row.
ghost use Rattle.std.specs.Prelude.{◌≡◌, set};

// A cell past the row's end is left out.
pub fn put(cells: &mut [u16], at: usize, word: u16)
    ensures { cells.new ≡ set cells.old at word }
{
    if at < cells.len() {
        cells[at] = word;
    }
}
