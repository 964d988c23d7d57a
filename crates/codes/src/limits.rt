// How much is lent, and how much is allowed (specs/Limits.antt).
pub const MOST_CELLS: usize = 65536;

pub const LONGEST_SOURCE: usize = 32768;

pub const MOST_LABELS: usize = 512;

pub const LONGEST_LABEL: usize = 64;

pub const DEEPEST: u32 = 32;

pub const LARGEST_SR: u16 = 63;

pub const LARGEST_STOP_CODE: u8 = 6;

pub const LARGEST_BUDGET: u32 = 1000000;
