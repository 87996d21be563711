// The parts of an input; `programs/Program` has the same as a definition.

// The bytes of a part.
pub const PART_SIZE: usize = 65_536;
