// How a period and a volume move: slides within their limits, and the waves of vibrato and tremolo.
#![tactic(auto)]

mod legal;
pub mod narrow;
pub mod slides;
pub mod waves;

// A wave of vibrato or tremolo: its x and y, from memory, its place and its form. Bytes, so that copying a channel stays cheap. The form is a
// number and no enum, since a state that C lends may hold any; past 2 it is as 2.
#[derive(Clone, Copy, Default, PartialEq, Eq)]
pub struct Wave {
    pub x: u8,
    pub y: u8,
    pub place: u8,
    pub form: u8,
}
