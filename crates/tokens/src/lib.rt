// Lines and tokens of a source (document 01, "Rules of writing"). The meaning is in specs/: Lines.antt and Rows.antt.
#![tactic(auto)]

use numerals::{Cursor, Radix};

pub mod commas; // what follows an operand or an item
pub mod lines; // where a line ends
pub mod marks; // the single mark at a cursor
pub mod strings; // the character of a string at a cursor
pub mod tokens; // the token at a cursor

// What a token is. A number above 65535 is out of every range, and counts as 65536.
#[derive(Clone, Copy)]
pub enum Kind {
    End,
    Stray,
    Word,
    Number(u32, Radix),
    Text,
    Mark(u8),
}

// A token: its kind, where it starts, whether it follows the one before directly, and the cursor after it.
#[derive(Clone, Copy)]
pub struct Token {
    pub kind: Kind,
    pub start: usize,
    pub directly: bool,
    pub next: Cursor,
}

// What stands at a cursor inside a string: a character or the closing quote, with the cursor after it, or neither.
#[derive(Clone, Copy)]
pub enum Character {
    Stands(u8, Cursor),
    Closed(Cursor),
    Broken,
}

// What follows an operand or an item of DATA: a comma, with the cursor after it, the line's end, or neither.
#[derive(Clone, Copy)]
pub enum Follows {
    Comma(Cursor),
    Over,
    Neither,
}
