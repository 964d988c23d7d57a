// Numbers as text: one rule for the assembler's numbers and for ININT, and decimals for WRINT and the printed image
// (document 01, "Rules of writing"). The meaning is in specs/: Numbers.antt has the rule, Writing.antt the decimals.
#![tactic(auto)]

pub mod bytes; // classes of bytes, and runs of them
pub mod reading; // the number at a cursor
pub mod writing; // decimals

// A place in a text. Reading hands back the moved cursor.
#[derive(Clone, Copy)]
pub struct Cursor {
    pub at: usize,
}

#[derive(Clone, Copy)]
pub enum Radix {
    Decimal,
    Hexadecimal,
}

// A number as it is written. The magnitude is exact up to 65536, and 65536 for anything larger.
#[derive(Clone, Copy)]
pub struct Numeral {
    pub negative: bool,
    pub radix: Radix,
    pub magnitude: u32,
}

// What was read at a cursor, with the cursor after it.
#[derive(Clone, Copy)]
pub struct Read<T> {
    pub value: T,
    pub next: Cursor,
}

// A decimal: the bytes from `start` on.
#[derive(Clone, Copy)]
pub struct Written {
    pub bytes: [u8; 11],
    pub start: usize,
}
