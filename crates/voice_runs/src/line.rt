// How far a run goes: a voice is a line through its sample's bytes, whose frames are counted by the inverse of its growth.
ghost use Rattle.std.specs.Prelude.{◌≡◌, ◌*◌, ◌<◌, ◌≤◌};
ghost use Rattle.runs.specs.Inverses.{Inverse};
ghost use Rattle.voice.specs.Voice.{fractions};
ghost use Rattle.voice_runs.specs.Runs.{Span, limit_of, longest, ahead_of};

use crate::inverses::UNIT;
use voice::FRACTIONS;

// A run takes at most so many bytes of a sample.
const LONGEST: u32 = 1024;

// A voice's pace: how much its fraction grows in a frame, and the inverse of that.
#[derive(Clone, Copy)]
pub struct Pace {
    pub growth: u32,
    pub inverse: usize,
}

// How many of the frames that are left begin within so many bytes.
pub fn span(fraction: u32, pace: Pace, bytes: u32, left: usize) -> usize
    requires inside { (fraction < bytes * fractions) × (bytes ≤ longest) × (0 < left) }
    requires pace { Inverse pace.growth pace.inverse }
    ensures { Span fraction pace.growth (bytes * fractions) left result }
{
    let way = (bytes * FRACTIONS - fraction + pace.growth - 1) as usize;
    (way * pace.inverse / UNIT).min(left)
}

// Where the run that begins at index ends: bytes 0 and 1 are a run of their own.
#[tactic(auto, unfolding(crate::specs::Runs::limit_of))]
fn limit(index: u32, end: u32) -> u32
    ensures { result ≡ limit_of index end }
{
    if index < 2 { end.min(2) } else { end }
}

// How many bytes that run takes.
#[tactic(auto, unfolding(crate::specs::Runs::ahead_of), using(crate::proofs::Lines::limit_past))]
pub fn ahead(index: u32, end: u32) -> u32
    requires { index < end }
    ensures { result ≡ ahead_of index end }
{
    (limit(index, end) - index).min(LONGEST)
}
