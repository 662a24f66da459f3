// A line's numbers, byte by byte: a byte's number is computed once and written into the cells of all its frames, and a few more, which the next byte
// writes over. The frame at which a byte begins is found by the growth's inverse.
ghost use Rattle.std.specs.Prelude.{◌≡◌, ◌+◌, ◌<◌, ◌≤◌, length};
ghost use Rattle.std.specs.Int.Signed.{mag};
ghost use Rattle.runs.specs.Lines.{Line, quarter16, parts};
ghost use Rattle.runs.specs.Written.{Written};
ghost use Rattle.runs.specs.Inverses.{most_frames, Inverse};
ghost use Rattle.voice_runs.specs.Runs.{product_of, weighed_at, piece};

use crate::inverses::UNIT;
use crate::line::Pace;
use runs::fills::fill_byte;

// How many parts a byte has.
const PARTS: usize = 65536;

// A byte read as signed, times a weight.
fn weighed(byte: u8, weight: u32) -> i16
    requires { weight ≤ 128 }
    ensures value { result ≡ product_of weight byte }
    ensures range { mag result < quarter16 }
{
    voice::signed(byte) * weight as i16
}

// What a line reads at a weight in so many frames, written into the front of the cells.
pub fn fill_line(
    bytes: &[u8],
    weight: u32,
    from: usize,
    pace: Pace,
    count: usize,
    cells: &mut [i16],
)
    requires line { Line bytes.now from pace.growth count }
    requires pace { Inverse pace.growth pace.inverse }
    requires short { (weight ≤ 128) × (from < parts) × (count ≤ piece) }
    requires room { count + most_frames ≤ length cells.old }
    ensures { Written (weighed_at weight bytes.now from pace.growth) 0 count cells.old cells.new }
{
    let growth = pace.growth as usize;
    let step = PARTS * pace.inverse;
    let mut due = (PARTS - from + growth - 1) * pace.inverse;
    let mut cell = 0;
    // (A `for` over the bytes takes longer, measured alone: half as long again at slow voices where it breaks off, an eighth at the shortest runs where
    // it goes over just the bytes that the line reads.)
    let mut m = 0;
    while cell < count {
        fill_byte(weighed(bytes[m], weight), growth, &mut cells[cell..]);
        cell = due / UNIT;
        due += step;
        m += 1;
    }
}
