// Where in its line a refusal points (document 02, K4): the line is read once more, after it was refused. The meaning is in
// specs/Points.antt; specs/Columns.antt has the same as functions of the line.
#![tactic(auto)]

pub mod lines; // the line of a number, in its source
mod naming; // the label that an operand names, in a line that passes
pub mod own; // the columns of a line's own parts: its label, its word, an operand
pub mod pointing; // what a refusal of a line points at

// A column of a line, counted from 1; 0 where nothing of a line is at fault. Never a line's number (sources::Line).
// No Option: "1 and 2 have column 0" (document 02, K4), and that 0 is printed.
#[derive(Clone, Copy)]
pub struct Column(pub usize);

// The column, and the operand's place, 1 or 2, that 16 names; 0 beside any other number. No Option: the place goes with the column to the
// record, and `PointsIn` (specs/Points.antt) says it as that number.
#[derive(Clone, Copy)]
pub struct Pointed {
    pub column: Column,
    pub place: u8,
}
