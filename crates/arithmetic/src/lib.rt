// What ENS2025 computes of cells: ADD, SUB, MUL, DIV, MOD, INC, DEC, NEG, CMP, AND, OR, XOR, NOT, with the flags
// Z, C, V, P, S (document 01, "What a step does"). The meaning is in specs/Operations.antt.
#![tactic(auto)]

ghost use Rattle.std.specs.Prelude.{◌≡◌};
ghost use Rattle.arithmetic.specs.Operations.{ADD, SUB, MUL, DIV, MOD, INC, DEC, NEG, CMP, AND, OR, XOR, NOT};

use cells::{cell_of, leaves, signed_of};
use flags::outcome_of;

mod cells; // a cell read as two's complement, and back
mod flags; // the flags of a result

// What an operation gives: the 16-bit result, and the flags Z, C, V, P, S as bits 0 to 4.
#[derive(Clone, Copy, Debug, PartialEq, Eq)]
pub struct Outcome {
    pub value: u16,
    pub flags: u16,
}

pub fn add(x: u16, y: u16) -> Outcome
    ensures { result ≡ ADD x y }
{
    let sum = x as u32 + y as u32;
    let overflow = leaves(signed_of(x) + signed_of(y));
    outcome_of((sum % 65536) as u16, 65535 < sum, overflow)
}

pub fn sub(x: u16, y: u16) -> Outcome
    ensures { result ≡ SUB x y }
{
    let raised = x as u32 + (65536 - y as u32);
    let overflow = leaves(signed_of(x) - signed_of(y));
    outcome_of((raised % 65536) as u16, x < y, overflow)
}

pub fn mul(x: u16, y: u16) -> Outcome
    ensures { result ≡ MUL x y }
{
    let product = (x as u32) * (y as u32);
    let overflow = leaves(signed_of(x) * signed_of(y));
    outcome_of((product % 65536) as u16, 65535 < product, overflow)
}

pub fn inc(x: u16) -> Outcome
    ensures { result ≡ INC x }
{
    add(x, 1)
}

pub fn dec(x: u16) -> Outcome
    ensures { result ≡ DEC x }
{
    sub(x, 1)
}

pub fn neg(x: u16) -> Outcome
    ensures { result ≡ NEG x }
{
    sub(0, x)
}

// The flags alone.
pub fn cmp(x: u16, y: u16) -> u16
    ensures { result ≡ CMP x y }
{
    sub(x, y).flags
}

// None: a zero divisor, the machine's stop 6.
pub fn div(x: u16, y: u16) -> Option<Outcome>
    ensures { result ≡ DIV x y }
{
    if y == 0 {
        return None;
    }
    let quotient = signed_of(x) / signed_of(y);
    Some(outcome_of(cell_of(quotient), false, leaves(quotient)))
}

// None: a zero divisor, the machine's stop 6.
pub fn modulo(x: u16, y: u16) -> Option<Outcome>
    ensures { result ≡ MOD x y }
{
    if y == 0 {
        return None;
    }
    let remainder = signed_of(x) % signed_of(y);
    Some(outcome_of(cell_of(remainder), false, false))
}

pub fn and(x: u16, y: u16) -> u16
    ensures { result ≡ AND x y }
{
    x & y
}

pub fn or(x: u16, y: u16) -> u16
    ensures { result ≡ OR x y }
{
    x | y
}

pub fn xor(x: u16, y: u16) -> u16
    ensures { result ≡ XOR x y }
{
    x ^ y
}

pub fn not(x: u16) -> u16
    ensures { result ≡ NOT x }
{
    !x
}
