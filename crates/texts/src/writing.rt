// Text written into a room that has place for it (specs/Inner/Wrote.antt). Each function answers the place after what it wrote.
ghost use Rattle.std.specs.Prelude.{◌++◌, ◌+◌, ◌≤◌, length};
ghost use Rattle.numerals.specs.Writing.{decimal, signed_decimal};
ghost use Rattle.texts.specs.Inner.Wrote.{Wrote};

// A text.
pub fn piece(room: &mut [u8], at: usize, text: &[u8]) -> usize
    requires { at + length text.now ≤ length room.old }
    ensures { Wrote room.old at text.now room.new result }
{
    let next = at + text.len();
    room[at..next].copy_from_slice(text);
    next
}

// A text and a decimal after it.
pub fn field(room: &mut [u8], at: usize, text: &[u8], n: u32) -> usize
    requires { at + length (text.now ++ decimal n) ≤ length room.old }
    ensures { Wrote room.old at (text.now ++ decimal n) room.new result }
{
    let next = piece(room, at, text);
    let written = numerals::writing::unsigned_decimal(n);
    piece(room, next, &written.bytes[written.start..])
}

// A text and a cell after it, as a signed decimal.
pub fn signed_field(room: &mut [u8], at: usize, text: &[u8], x: u16) -> usize
    requires { at + length (text.now ++ signed_decimal x) ≤ length room.old }
    ensures { Wrote room.old at (text.now ++ signed_decimal x) room.new result }
{
    let next = piece(room, at, text);
    let written = numerals::writing::signed_decimal(x);
    piece(room, next, &written.bytes[written.start..])
}
