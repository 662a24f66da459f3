// The stream's decoder: judges any bytes as a stream (refusals 21, 22, 28 and 23), and reads it record by record, with the registers as its state.
// The module that it is for gives the last sample number and the number of channels.
#![tactic(auto)]

ghost use Rattle.std.specs.Prelude.{◌≡◌, ◌≤◌, length};
ghost use Rattle.records.specs.Format.{least_place, records_place, keeps, shift, stream_channels, first_record};

use records::{
    CHANNELS_PLACE, COUNTED_VERSION, FIRST_VERSION, LEAST_PLACE, OLD_CHANNELS, VERSION_PLACE,
};

pub mod reading;
pub mod stream;

// By how many bytes a version's channel count moves what comes after it.
#[tactic(auto, unfolding(records::specs::Format::shift))]
pub fn shift(version: u8) -> usize
    ensures { (result ≡ shift version) × (result ≤ 1) }
{
    usize::from(version >= COUNTED_VERSION)
}

// The place of a stream's first record, which may be the bytes' end or, where one is short of its channel count, past it.
pub fn first_record(stream: &[u8]) -> usize
    requires { least_place ≤ length stream.now }
    ensures { (result ≡ first_record stream.now) × (result ≤ records_place) }
{
    LEAST_PLACE + shift(stream[VERSION_PLACE])
}

// How many channels a stream is for.
#[tactic(auto, unfolding(records::specs::Format::stream_channels))]
pub fn channels_in(stream: &[u8]) -> usize
    requires { least_place ≤ length stream.now }
    ensures { result ≡ stream_channels stream.now }
{
    if stream[VERSION_PLACE] < COUNTED_VERSION {
        OLD_CHANNELS
    } else {
        usize::from(stream[CHANNELS_PLACE])
    }
}

// Whether a stream's ticks keep a remainder.
#[tactic(auto, unfolding(records::specs::Format::keeps))]
pub fn keeps(stream: &[u8]) -> bool
    requires { least_place ≤ length stream.now }
    ensures { result ≡ keeps stream.now }
{
    stream[VERSION_PLACE] != FIRST_VERSION
}
