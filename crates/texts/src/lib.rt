// Text in a lent room, one piece behind the other: lines that end in LF, texts and decimals. The meaning is in specs/Lines.antt.
#![tactic(auto)]

pub mod writing;
