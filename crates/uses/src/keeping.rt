// The labels that operands name, one after the other in two lent rows (specs/Inner/Held.antt): four cells each in the first, the name's place
// and length in the source, the cell of the operand's word, and the line; in the second how far the address after the instruction lies
// behind that cell, 0 where the label's value stands as it is.
ghost use Rattle.std.specs.Prelude.{[], ◌∷◌, ◌+◌};
ghost use Rattle.uses.specs.Inner.Held.{use_held, Adds, Room};

// A source of 32,768 bytes names fewer (`most_uses`).
pub const MOST_USES: usize = 32770;

// The cells of the first row.
pub const ROW_CELLS: usize = 4 * MOST_USES;

// One more.
pub fn keep(
    row: &mut [u16],
    aways: &mut [u8],
    count: usize,
    start: u16,
    size: u16,
    cell: u16,
    line: u16,
    away: u8,
)
    requires { Room (count + 1) row.old aways.old }
    ensures { Adds row.old aways.old count (λ s. use_held s start size cell line away ∷ []) row.new aways.new (count + 1) }
{
    let base = 4 * count;
    row[base] = start;
    row[base + 1] = size;
    row[base + 2] = cell;
    row[base + 3] = line;
    aways[count] = away;
}
