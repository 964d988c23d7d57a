// Decimals without leading zeros (specs/Writing.antt).
ghost use Rattle.std.specs.Prelude.{◌≡◌};
ghost use Rattle.numerals.specs.Writing.{decimal, signed_decimal, written};

use super::Written;

// The decimal of a number.
pub fn unsigned_decimal(n: u32) -> Written
    ensures { result ≡ written (decimal n) }
{
    let mut bytes = [0u8; 11];
    let mut left = n;
    for i in (1..11).rev() {
        bytes[i] = b'0' + (left % 10) as u8;
        if left < 10 {
            return Written { bytes, start: i };
        }
        left /= 10;
    }
    Written { bytes, start: 1 }
}

// The decimal of a cell read as two's complement.
pub fn signed_decimal(x: u16) -> Written
    ensures { result ≡ written (signed_decimal x) }
{
    if x < 32768 {
        return unsigned_decimal(x as u32);
    }
    let mut its = unsigned_decimal(65536 - x as u32);
    let start = its.start - 1;
    its.bytes[start] = b'-';
    its.start = start;
    its
}
