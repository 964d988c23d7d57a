// "SR bits: Z 0, C 1, V 2, P 3, S 4, H 5": what each flag counts for (specs/Flags.antt).
pub const FOR_Z: u16 = 1;

pub const FOR_C: u16 = 2;

pub const FOR_V: u16 = 4;

pub const FOR_P: u16 = 8;

pub const FOR_S: u16 = 16;

pub const FOR_H: u16 = 32;
