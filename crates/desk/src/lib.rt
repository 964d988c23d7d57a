// What the programs that take FILE and M share: their words, the source, rooms, text and a refusal told. What the operating system
// hands over, and what becomes of what it is handed, no promise can determine; each promise says what holds whatever it does.
#![tactic(auto)]

pub mod arguments; // FILE and M
mod excerpts; // the refused line, and a caret
pub mod printing; // text in a room, and a failure told
pub mod refusals; // a refusal, told
pub mod source; // a file's bytes
