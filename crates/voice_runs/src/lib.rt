// Voices in runs: up to its sample's end a voice is a line through bytes, and its numbers are written byte by byte into cells, or passed by.
#![tactic(auto)]

ghost use Rattle.common.specs.LimitFacts.{LegalPeriod};
ghost use Rattle.voice_runs.specs.Runs.{Paced};

use crate::inverses::inverse;
pub use crate::line::Pace;
pub use crate::runner::Runner;

mod bytes;
mod inverses;
mod line;
mod runner;

// Frames are spread in pieces of at most so many.
pub const PIECE: usize = 1024;

// Behind a piece, cells that may be written over.
pub const SPARE: usize = 16;

// The pace of a voice of this period.
pub fn pace(period: u16) -> Pace
    requires { LegalPeriod period }
    ensures { Paced period result }
{
    let growth = voice::rate(period);
    Pace {
        growth,
        inverse: inverse(growth as usize),
    }
}
