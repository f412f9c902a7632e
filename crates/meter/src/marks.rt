// The marks of a reading. They are numbers and no enum, since any number may stand there; another counts
// as none.

pub const NONE: u8 = 0;

pub const MEMORY: u8 = 1;

pub const OVERFLOW: u8 = 2;
