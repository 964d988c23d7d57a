// A cell read as two's complement in an i32, and back.
ghost use Rattle.std.specs.Prelude.{◌≡◌, ◌<◌};
ghost use Rattle.std.specs.Int.Signed.{mag};
ghost use Rattle.arithmetic.specs.Cells.{signed, cell, leaves16};

pub(crate) fn signed_of(x: u16) -> i32
    ensures { result ≡ signed x }
{
    if x < 32768 {
        x as i32
    } else {
        (x as i32) - 65536
    }
}

pub(crate) fn cell_of(z: i32) -> u16
    requires { mag z < 65536 }
    ensures { result ≡ cell z }
{
    if z < 0 { (z + 65536) as u16 } else { z as u16 }
}

#[tactic(auto, unfolding(crate::specs::Cells::leaves16))]
pub(crate) fn leaves(z: i32) -> bool
    ensures { result ≡ leaves16 z }
{
    z < -32768 || 32767 < z
}
