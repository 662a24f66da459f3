// Runners: a voice's next frames are run after run, each a line through its sample's bytes, up to its sample's end at most.
ghost use Rattle.std.specs.Prelude.{◌≡◌, false, [], ◌+◌, ◌<◌, ◌≤◌, length, drop};
ghost use Rattle.runs.specs.Cells.{Holds};
ghost use Rattle.runs.specs.Written.{Written};
ghost use Rattle.voice.specs.Modules.{sample_with};
ghost use Rattle.voice.specs.Frames.{steps_of};
ghost use Rattle.voice.specs.LegalFacts.{LegalSound, LoopInside};
ghost use Rattle.voice_runs.specs.Running.{legal_props};
ghost use Rattle.voice_runs.specs.Runs.{Follows, Paced, one_at, piece, quiet_of, line_growth, spare, weight_of, weighed_at};

use crate::bytes::fill_line;
use crate::line::{Pace, ahead, span};
use reader::Extent;
use voice::{FRACTIONS, Voice};

// A voice with its sample's extent and its pace.
#[derive(Clone, Copy)]
pub struct Runner {
    pub voice: Voice,
    pub extent: Extent,
    pub pace: Pace,
    ghost looping: { LoopInside (sample_with [] extent) },
    ghost legal: { LegalSound extent.end voice } by { Prim.hlevel legal_props },
    ghost paced: { Paced voice.period pace },
}

impl Runner {
    // Whether the next run is quiet, where every byte counts as 0.
    #[tactic(auto, unfolding(crate::specs::Runs::quiet_of))]
    fn quiet(self) -> bool
        ensures { result ≡ quiet_of self.voice }
    {
        self.voice.silent() || self.voice.index < 2
    }

    // How many of the frames that are left the next run has.
    fn count(self, left: usize) -> usize
        requires { 0 < left }
        ensures run { Follows self.extent self.voice (quiet_of self.voice) (line_growth self.voice self.pace) result }
        ensures most { result ≤ left }
    {
        if self.voice.silent() {
            return left;
        }
        let bytes = ahead(self.voice.index, self.extent.end);
        span(u32::from(self.voice.fraction), self.pace, bytes, left)
    }

    // The run's numbers at a weight, into the front of the cells. The cells behind them may be written over.
    fn write(self, bytes: &[u8], weight: u32, count: usize, cells: &mut [i16])
        requires whole { (self.extent.end ≤ length bytes.now) × (0 < length bytes.now) }
        requires run { Follows self.extent self.voice (quiet_of self.voice) (line_growth self.voice self.pace) count }
        requires fits { (weight ≤ 128) × (count ≤ piece) × (count + spare ≤ length cells.old) }
        ensures { Written (weighed_at (weight_of (quiet_of self.voice) weight) (drop self.voice.index bytes.now) self.voice.fraction (line_growth self.voice self.pace)) 0 count cells.old cells.new }
    {
        if self.quiet() {
            cells[..count].fill(0);
            return;
        }
        let index = self.voice.index as usize;
        let from = usize::from(self.voice.fraction);
        fill_line(&bytes[index..], weight, from, self.pace, count, cells);
    }

    // The voice after the run, which has so many frames.
    fn after(self, count: usize) -> Voice
        requires { Follows self.extent self.voice (quiet_of self.voice) (line_growth self.voice self.pace) count }
        ensures { result ≡ steps_of (sample_with [] self.extent) count self.voice }
    {
        if self.voice.silent() {
            return self.voice;
        }
        let past = usize::from(self.voice.fraction) + (count - 1) * self.pace.growth as usize;
        let past = past as u32;
        let index = self.voice.index + past / FRACTIONS;
        let last = self.voice.placed(index, (past % FRACTIONS) as u16);
        last.step(self.pace.growth, self.extent)
    }

    // The voice's numbers of the next frames, each so many times, into the front of cells, and the voice after them. The cells behind them may be written over.
    pub fn spread(mut self, bytes: &[u8], times: u32, frames: usize, cells: &mut [i16]) -> Voice
        requires whole { (self.extent.end ≤ length bytes.now) × (0 < length bytes.now) }
        requires fits { (times ≤ 2) × (frames ≤ piece) × (frames + spare ≤ length cells.old) }
        ensures moved { result ≡ steps_of (sample_with bytes.now self.extent) frames self.voice }
        ensures numbers { Holds (one_at times (sample_with bytes.now self.extent) self.voice) frames cells.new }
        ensures long { length cells.new ≡ length cells.old }
    {
        let weight = u32::from(self.voice.volume) * times;
        let mut written = 0;
        // (Runs differ in length, so that these loops are no `for`.)
        while written < frames {
            let count = self.count(frames - written);
            self.write(bytes, weight, count, &mut cells[written..]);
            self.voice = self.after(count);
            written += count;
        }
        self.voice
    }

    // The voice after the next frames, which nobody hears. No byte of the sample is read.
    pub fn pass(mut self, frames: usize) -> Voice
        ensures { result ≡ steps_of (sample_with [] self.extent) frames self.voice }
    {
        let mut passed = 0;
        while passed < frames {
            let count = self.count(frames - passed);
            self.voice = self.after(count);
            passed += count;
        }
        self.voice
    }
}
