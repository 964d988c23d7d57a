// The labels that a statement's operands name (sources/specs/Uses.antt, `usesBy`).
ghost use Rattle.std.specs.Prelude.{◌≡◌, ◌++◌, ◌+◌, ◌≤◌, ◌<◌, length};
ghost use Rattle.isa.specs.Operands.{operand_words};
ghost use Rattle.statements.specs.Judging.{claim_of};
ghost use Rattle.statements.specs.Reading.{line_read};
ghost use Rattle.codes.specs.Limits.{most_cells, longest_source};
ghost use Rattle.sources.specs.Uses.{uses_by, second_cell};
ghost use Rattle.labels.specs.Inner.Labels.{InCell};
ghost use Rattle.uses.specs.Inner.Held.{Adds, Room};
ghost use Rattle.walking.specs.Inner.Noting.{away_for, noted, AddsOf, Placeable};

use isa::Operand;
use isa::opcodes::operand_count;
use operands::Given;
use statements::Statement;
use uses::keeping::keep;

// How far the address after the instruction lies behind an operand's cell, if its label's value is counted from there; else 0.
fn away(o: Operand, behind: u8) -> u8
    ensures { result ≡ away_for o behind }
{
    match o {
        Operand::Relative(_) => behind,
        _ => 0,
    }
}

// How many words an operand has.
fn width(o: Operand) -> usize
    ensures { result ≡ length (operand_words o) }
{
    match o {
        Operand::Absent => 0,
        _ => 1,
    }
}

// An operand on a line that starts at a place of the source, with the cell of its word and the address after the instruction; hands
// back how many labels are named by then.
fn note(
    row: &mut [u16],
    aways: &mut [u8],
    count: usize,
    from: usize,
    number: usize,
    cell: usize,
    next: usize,
    g: Given,
) -> usize
    requires { Room (count + 1) row.old aways.old × InCell number × Placeable from cell next g.label }
    ensures { Adds row.old aways.old count (λ s. noted s from number cell next g) row.new aways.new result
        × (count ≤ result)
        × (result ≤ count + 1) }
{
    let Some(n) = g.label else {
        return count;
    };
    let start = n.start;
    let size = n.end - start;
    let behind = (next - cell) as u8;
    let far = away(g.operand, behind);
    let place = (from + start) as u16;
    let long = size as u16;
    keep(
        row,
        aways,
        count,
        place,
        long,
        cell as u16,
        number as u16,
        far,
    );
    count + 1
}

// The operands of an instruction, in order.
fn note_operands(
    row: &mut [u16],
    aways: &mut [u8],
    count: usize,
    from: usize,
    number: usize,
    at: usize,
    next: usize,
    a: Given,
    b: Given,
) -> usize
    requires { Room (count + 2) row.old aways.old
        × InCell number
        × (at ≤ most_cells)
        × Placeable from (at + 1) next a.label
        × Placeable from (second_cell at a) next b.label }
    ensures { Adds row.old aways.old count
        (λ s. noted s from number (at + 1) next a ++ noted s from number (second_cell at a) next b) row.new aways.new result
        × (count ≤ result)
        × (result ≤ count + 2) }
{
    let o = a.operand;
    let second = at + 1 + width(o);
    let n = note(row, aways, count, from, number, at + 1, next, a);
    note(row, aways, n, from, number, second, next, b)
}

// Those of a statement on a line of the source, which starts at a place; hands back how many labels are named by then.
pub(crate) fn note_statement(
    line: &[u8],
    from: usize,
    number: usize,
    says: Statement,
    at: usize,
    row: &mut [u16],
    aways: &mut [u8],
    count: usize,
) -> usize
    requires { ((line_read line.now).statement ≡ Ok says)
        × (from + length line.now ≤ longest_source)
        × InCell number
        × (at ≤ most_cells)
        × (0 < claim_of says → at + claim_of says ≤ most_cells)
        × Room (count + 2) row.old aways.old }
    ensures { AddsOf from line.now row.old aways.old count
        (uses_by number line.now at says) row.new aways.new result
        × (count ≤ result)
        × (result ≤ count + length line.now + 1) }
{
    match says {
        Statement::Instruction(op, a, b) => {
            let next = at + operand_count(op) + 1;
            note_operands(row, aways, count, from, number, at, next, a, b)
        }
        _ => count,
    }
}
