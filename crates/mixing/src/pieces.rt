// Pieces: both sides of some frames, woven; and all frames, piece by piece.
ghost use Rattle.std.specs.Prelude.{◌≡◌, ◌+◌, ◌*◌, ◌≤◌, length};
ghost use Rattle.runs.specs.Cells.{stride, Woven};
ghost use Rattle.voice_runs.specs.Runs.{piece};
ghost use Rattle.mixing.specs.Mixes.{Mixable, side_in, later_in};

use crate::side::{CELLS, Mix, Side};
use common::limits::WIDTH;
use runs::FRAME_NUMBERS;
use voice::Voice;
use voice_runs::PIECE;

// The cells of a piece's sides, and those of a channel that is added to one.
#[derive(Drop)]
struct Scratch {
    left: [i16; CELLS],
    right: [i16; CELLS],
    further: [i16; CELLS],
}

impl Mix<'_> {
    // A piece's frames into out, from frame `at` on, and the voices after them.
    fn piece(
        &self,
        voices: &mut [Voice; WIDTH],
        frames: usize,
        scratch: &mut Scratch,
        at: usize,
        out: &mut [i16],
    )
        requires voices { Mixable self.now voices.old }
        requires fits { (frames ≤ piece) × (stride * (at + frames) ≤ length out.old) }
        ensures moved { voices.new ≡ later_in self.now voices.old frames }
        ensures woven { Woven (side_in self.now voices.old 0) (side_in self.now voices.old 1) at frames out.old out.new }
    {
        self.side(
            Side::Left,
            voices,
            frames,
            &mut scratch.left,
            &mut scratch.further,
        );
        self.side(
            Side::Right,
            voices,
            frames,
            &mut scratch.right,
            &mut scratch.further,
        );
        runs::scratch::interleave(
            &scratch.left[..frames],
            &scratch.right[..frames],
            &mut out[FRAME_NUMBERS * at..FRAME_NUMBERS * (at + frames)],
        );
    }

    // All frames into the front of out, and the voices after them.
    pub fn pieces(&self, voices: &mut [Voice; WIDTH], frames: usize, out: &mut [i16])
        requires voices { Mixable self.now voices.old }
        requires fits { stride * frames ≤ length out.old }
        ensures moved { voices.new ≡ later_in self.now voices.old frames }
        ensures woven { Woven (side_in self.now voices.old 0) (side_in self.now voices.old 1) 0 frames out.old out.new }
    {
        let mut scratch = Scratch {
            left: [0; CELLS],
            right: [0; CELLS],
            further: [0; CELLS],
        };
        for k in 0..frames.div_ceil(PIECE) {
            let at = k * PIECE;
            let n = PIECE.min(frames - at);
            self.piece(voices, n, &mut scratch, at, out);
        }
    }
}
