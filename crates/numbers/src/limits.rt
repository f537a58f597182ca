// The limits of document 01 as document 02 changed them, once, by name. `specs/Limits.antt` has the same names.

// Intervals of a circuit: a number is below it.
pub const INTERVALS: u32 = 3_000_000;
// Frames in one interval, at most.
pub const FRAMES: u32 = 1_024;
// The largest delay, in ns.
pub const LARGEST_DELAY: u32 = 4_000_000_000;
// Delays in a lent list, at most.
pub const DELAYS: usize = 1_000_000;
// Ordered pairs in a set, at most.
pub const PAIRS: u64 = 64;
// Parts of a whole: ratios are in parts per million.
pub const MILLION: u32 = 1_000_000;
