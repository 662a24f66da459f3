// Runs: the loops over cells of numbers. Nothing here knows voices.
#![tactic(auto)]

pub mod fills;
pub mod scratch;

// How many numbers a frame takes, left and right.
pub const FRAME_NUMBERS: usize = 2;
