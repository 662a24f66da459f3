// Ticks: what a tick tells each channel's voice, and the fitting rule by which ticks are played into a buffer.
#![tactic(auto)]

use common::limits::WIDTH;

// What a channel's voice is told in a tick: sounding sample, volume and sounded period, whether the voice starts, and the start's
// offset / 256 (0 without a start).
#[derive(Clone, Copy, Default, PartialEq)]
pub struct Command {
    pub sample: u8,
    pub volume: u8,
    pub period: u16,
    pub start: bool,
    pub offset: u8,
}

// A tick: its tempo, and a command for each channel.
#[derive(Clone, Copy, Default, PartialEq)]
pub struct Tick {
    pub tempo: u32,
    pub commands: [Command; WIDTH],
}
