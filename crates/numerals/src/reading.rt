// The number at a cursor (specs/Reading.antt).
ghost use Rattle.std.specs.Prelude.{◌≡◌, ◌+◌, ◌-◌, ◌≤◌, length, take, drop, get_or};
ghost use Rattle.numerals.specs.Digits.{worth};
ghost use Rattle.numerals.specs.Numbers.{base, cut, kept_of};
ghost use Rattle.numerals.specs.Reading.{digits_at, radix_at, unsigned_at, number_at, line_number};

use super::bytes::{rank_of, run_end};
use super::{Cursor, Numeral, Radix, Read};

// The byte at a place, and 0 past the end.
fn byte_at(s: &[u8], at: usize) -> u8
    ensures { result ≡ get_or s.now at 0 }
{
    s.get(at).copied().unwrap_or(0)
}

fn base_of(k: Radix) -> u8
    ensures { result ≡ base k }
{
    match k {
        Radix::Decimal => 10,
        Radix::Hexadecimal => 16,
    }
}

// What the digits of a part are worth, cut at 65536.
fn worth_of(s: &[u8], from: usize, end: usize, radix: u8) -> u32
    requires { (from ≤ end) × (end ≤ length s.now) × (radix ≤ 16) }
    ensures { result ≡ cut (worth radix (take (end - from) (drop from s.now))) }
{
    let mut v: u32 = 0;
    for i in from..end {
        v = (v * u32::from(radix) + u32::from(rank_of(s[i]))).min(65536);
    }
    v
}

// The digits of a radix from a place on, if no byte of a word follows them.
fn digits_at(s: &[u8], from: usize, k: Radix, negative: bool) -> Option<Read<Numeral>>
    ensures { result ≡ digits_at negative k s.now from }
{
    let radix = base_of(k);
    let end = run_end(s, from, radix);
    if end == from {
        return None;
    }
    if run_end(s, end, 17) != end {
        return None;
    }
    let magnitude = worth_of(s, from, end, radix);
    Some(Read {
        value: Numeral {
            negative,
            radix: k,
            magnitude,
        },
        next: Cursor { at: end },
    })
}

fn radix_at(s: &[u8], at: usize) -> Radix
    ensures { result ≡ radix_at s.now at }
{
    if s.len() <= at {
        return Radix::Decimal;
    }
    if s[at] != 48 {
        return Radix::Decimal;
    }
    if byte_at(s, at + 1) == 120 {
        Radix::Hexadecimal
    } else {
        Radix::Decimal
    }
}

impl Cursor {
    // The unsigned number at the cursor.
    pub fn unsigned(self, s: &[u8]) -> Option<Read<Numeral>>
        ensures { result ≡ unsigned_at s.now self.at }
    {
        let at = self.at;
        let k = radix_at(s, at);
        match k {
            Radix::Decimal => digits_at(s, at, Radix::Decimal, false),
            Radix::Hexadecimal => digits_at(s, at + 2, Radix::Hexadecimal, false),
        }
    }

    // The number at the cursor, with its sign.
    pub fn number(self, s: &[u8]) -> Option<Read<Numeral>>
        ensures { result ≡ number_at s.now self.at }
    {
        let at = self.at;
        if byte_at(s, at) == 45 {
            return digits_at(s, at + 1, Radix::Decimal, true);
        }
        self.unsigned(s)
    }
}

// The cell that keeps a number, modulo 65536. None: it is outside -32768..65535.
pub fn kept(n: Numeral) -> Option<u16>
    ensures { result ≡ kept_of n }
{
    let m = n.magnitude;
    if n.negative {
        if 32768 < m {
            return None;
        }
        return Some(((65536 - m) % 65536) as u16);
    }
    if 65535 < m {
        return None;
    }
    Some((m % 65536) as u16)
}

// The number that a whole line is, and 0 for any other line.
pub fn line_number(s: &[u8]) -> u16
    ensures { result ≡ line_number s.now }
{
    match (Cursor { at: 0 }).number(s) {
        Some(read) if read.next.at == s.len() => kept(read.value).unwrap_or(0),
        _ => 0,
    }
}
