// The limits of a lock.
pub const MOST_INPUTS: usize = 1024;

pub const MOST_GATES: usize = 200_000;

pub const MOST_OUTPUTS: usize = 1024;

// A branch's view takes at most so many bytes.
pub const LONGEST_VIEW: usize = 65_535;
