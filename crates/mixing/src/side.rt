// A side of a piece: the first channel that sounds on it is spread into the side's cells, and each further one added to them.
ghost use Rattle.std.specs.Prelude.{◌≡◌, ◌+◌, ◌<◌, ◌≤◌, length, get_or, unwrap_or, IfSome};
ghost use Rattle.common.specs.Limits.{width};
ghost use Rattle.common.specs.ByteLaws.{Bytes};
ghost use Rattle.runs.specs.Cells.{Holds, Narrow};
ghost use Rattle.voice.specs.Frames.{steps_of, side_of};
ghost use Rattle.voice.specs.Range.{LegalSides};
ghost use Rattle.voice_runs.specs.Runs.{one_at, piece, spare, Paced};
ghost use Rattle.mixing.specs.Sides.{number_of, Voiced, extent_at, no_pace, sounds_of, Next};

use common::limits::WIDTH;
use reader::Extent;
use voice::Voice;
use voice_runs::{PIECE, Pace, Runner, SPARE};

// The cells of a piece's side.
pub const CELLS: usize = PIECE + SPARE;

#[derive(Clone, Copy, PartialEq, Eq)]
pub enum Side {
    Left,
    Right,
}

impl Side {
    // The side that channel i, from 0, is on.
    #[tactic(auto, unfolding(voice::specs::Frames::side_of))]
    fn of(i: usize) -> Side
        requires { i < width }
        ensures { number_of result ≡ side_of i }
    {
        if (i + 1) / 2 % 2 == 0 {
            Side::Left
        } else {
            Side::Right
        }
    }

    // Whether channel i, of this voice, sounds on the side.
    fn sounds(self, i: usize, voice: Voice) -> bool
        requires { i < width }
        ensures { result ≡ sounds_of (number_of self) i voice }
    {
        Side::of(i) == self && !voice.silent()
    }
}

// What voices are mixed from: for each channel its sample's extent in the file and its pace; and what a side's sums are multiplied by.
// The arrays lie beside that of the voices, by channel, as Sounding and Pacing (specs/Sides.antt) have them, with room for all channels: memory is fixed.
#[derive(Drop)]
pub struct Mix<'a> {
    pub file: &'a [u8],
    pub extents: [Extent; WIDTH],
    pub paces: [Pace; WIDTH],
    pub channels: usize,
    pub times: u32,
    ghost bytes: { Bytes file.now },
    ghost few: { channels ≤ width },
    ghost sides: { LegalSides channels times },
}

impl Mix<'_> {
    ghost use Rattle.mixing.specs.Mixes.{Mixable, sample_of, side_in, sided_in};

    // The first channel from one on that sounds on a side.
    fn next(&self, on: Side, from: usize, voices: &[Voice; WIDTH]) -> Option<usize>
        requires { from ≤ self.now.channels }
        ensures found { IfSome result (λ i. i < self.now.channels) }
        ensures next { Next voices.now (number_of on) self.now.channels from (unwrap_or result self.now.channels) }
    {
        (from..self.channels).find(|&i| on.sounds(i, voices[i]))
    }

    // Channel i's numbers, spread into cells, and its voice after them.
    fn sound(&self, i: usize, voice: Voice, frames: usize, cells: &mut [i16; CELLS]) -> Voice
        requires channel { i < self.now.channels }
        requires voiced { Voiced self.now.file.now (extent_at self.now.extents i) voice × (0 < (extent_at self.now.extents i).end) }
        requires pace { Paced voice.period (get_or self.now.paces i no_pace) }
        requires short { frames ≤ piece }
        ensures moved { result ≡ steps_of (sample_of self.now i) frames voice }
        ensures numbers { Holds (one_at self.now.times (sample_of self.now i) voice) frames cells.new }
    {
        let extent = self.extents[i];
        let runner = Runner {
            voice,
            extent,
            pace: self.paces[i],
        };
        runner.spread(
            &self.file[extent.from..extent.to],
            self.times,
            frames,
            cells,
        )
    }

    // A side's numbers, in its cells, and its voices after them. A further channel's are spread into spare cells first.
    pub fn side(
        &self,
        on: Side,
        voices: &mut [Voice; WIDTH],
        frames: usize,
        cells: &mut [i16; CELLS],
        further: &mut [i16; CELLS],
    )
        requires voices { Mixable self.now voices.old }
        requires short { frames ≤ piece }
        ensures moved { voices.new ≡ sided_in self.now voices.old frames (number_of on) }
        ensures numbers { Holds (side_in self.now voices.old (number_of on)) frames cells.new }
        ensures narrow { Narrow cells.new frames }
        ensures long { length cells.new ≡ piece + spare }
    {
        let Some(first) = self.next(on, 0, voices) else {
            cells[..frames].fill(0);
            return;
        };
        voices[first] = self.sound(first, voices[first], frames, cells);
        let mut next = self.next(on, first + 1, voices);
        while let Some(i) = next {
            voices[i] = self.sound(i, voices[i], frames, further);
            runs::scratch::add_to(&mut cells[..frames], further);
            next = self.next(on, i + 1, voices);
        }
    }
}
