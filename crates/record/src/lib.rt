// The record of a run: how it ended, as text, in a lent room. The meaning is in specs/: Record.antt has the text, Recording.antt the
// refusals and what the room holds after.
#![tactic(auto)]

mod lines; // the text, written
pub mod recording;

// Why no record is written.
#[derive(Clone, Copy, Debug, PartialEq, Eq)]
pub enum NotRecorded {
    TooFar,
    RoomShort,
}
