// The version that the library is built as. The file VERSION has it in words, and a test holds the two together.

pub const MAJOR: u32 = 0;

pub const MINOR: u32 = 1;

pub const PATCH: u32 = 0;
