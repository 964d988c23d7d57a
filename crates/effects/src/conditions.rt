// When a branch is taken (specs/Conditions.antt).
ghost use Rattle.std.specs.Prelude.{◌≡◌};
ghost use Rattle.effects.specs.Conditions.{flag_z, flag_c, flag_v, flag_p, flag_s, taken_bnp, taken_bnn};

use codes::flags::{FOR_C, FOR_P, FOR_S, FOR_V, FOR_Z};

pub(crate) fn zero(sr: u16) -> bool
    ensures { result ≡ flag_z sr }
{
    sr / FOR_Z % 2 == 1
}

pub(crate) fn carry(sr: u16) -> bool
    ensures { result ≡ flag_c sr }
{
    sr / FOR_C % 2 == 1
}

pub(crate) fn overflow(sr: u16) -> bool
    ensures { result ≡ flag_v sr }
{
    sr / FOR_V % 2 == 1
}

pub(crate) fn odd(sr: u16) -> bool
    ensures { result ≡ flag_p sr }
{
    sr / FOR_P % 2 == 1
}

pub(crate) fn minus(sr: u16) -> bool
    ensures { result ≡ flag_s sr }
{
    sr / FOR_S % 2 == 1
}

pub(crate) fn not_positive(sr: u16) -> bool
    ensures { result ≡ taken_bnp sr }
{
    minus(sr) || zero(sr)
}

pub(crate) fn not_negative(sr: u16) -> bool
    ensures { result ≡ taken_bnn sr }
{
    !minus(sr) || zero(sr)
}
