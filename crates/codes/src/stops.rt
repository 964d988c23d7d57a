// "Stops: 0 none, 1 HALT, 2 opcode, 3 mode, 4 register code, 5 memory end, 6 zero divisor, 7 budget spent, 8 input at its end,
// 9 output room short, 10 bad loan" (specs/Stops.antt).
pub const NONE: u8 = 0;

pub const HALTED: u8 = 1;

pub const NO_OPCODE: u8 = 2;

pub const NO_MODE: u8 = 3;

pub const NO_REGISTER: u8 = 4;

pub const MEMORY_END: u8 = 5;

pub const ZERO_DIVISOR: u8 = 6;

pub const BUDGET_SPENT: u8 = 7;

pub const INPUT_END: u8 = 8;

pub const OUTPUT_SHORT: u8 = 9;

pub const BAD_LOAN: u8 = 10;
