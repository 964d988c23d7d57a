// "Registers: R0..R9 0..9, A 10, SR 11, IX 12, IY 13, SP 14, PC 15" (specs/Registers.antt).
pub const A: usize = 10;

pub const SR: usize = 11;

pub const IX: usize = 12;

pub const IY: usize = 13;

pub const SP: usize = 14;

pub const PC: usize = 15;

pub const REGISTER_COUNT: u16 = 16;
