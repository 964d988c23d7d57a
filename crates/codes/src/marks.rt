// "A map of M bytes marks each cell: 0 free, 1 code, 2 data"; "RES must claim its cells, marked 3" (specs/Marks.antt).
pub const FREE: u8 = 0;

pub const CODE: u8 = 1;

pub const DATA: u8 = 2;

pub const RESERVED: u8 = 3;

pub const LARGEST_MARK: u8 = 3;
