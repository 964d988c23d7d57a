// Classes of bytes, and runs of them (specs/Bytes.antt).
ghost use Rattle.std.specs.Prelude.{◌≡◌, ◌+◌, ◌≤◌, ◌<◌, drop};
ghost use Rattle.numerals.specs.Bytes.{rank};
ghost use Rattle.numerals.specs.Reading.{run};

// A digit's value, 16 for any other byte of a word, 17 for the rest.
pub fn rank_of(b: u8) -> u8
    ensures { result ≡ rank b }
{
    if b < 48 {
        return 17;
    }
    if b < 58 {
        return b - 48;
    }
    if b < 97 {
        return rank_of_capital(b);
    }
    if b < 103 {
        return b - 87;
    }
    if b < 123 {
        return 16;
    }
    17
}

// The rank of a byte below 97 that is past the digits.
fn rank_of_capital(b: u8) -> u8
    requires { (58 ≤ b) × (b < 97) }
    ensures { result ≡ rank b }
{
    if b < 65 {
        return 17;
    }
    if b < 71 {
        return b - 55;
    }
    if b < 91 {
        return 16;
    }
    if b == 95 {
        return 16;
    }
    17
}

// The end of the longest run, from a place on, of bytes that rank below a number.
pub fn run_end(s: &[u8], from: usize, below: u8) -> usize
    ensures { result ≡ from + run below (drop from s.now) }
{
    for i in from..s.len() {
        if rank_of(s[i]) >= below {
            return i;
        }
    }
    from.max(s.len())
}
