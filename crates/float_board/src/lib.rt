// The stream player as 32-bit floats, for a page of one side or two. Module, sides and stream are judged before a frame is written.
#![tactic(auto)]

ghost use Rattle.std.specs.Prelude.{◌≡◌};
ghost use Rattle.common.specs.Answers.{outcome};
ghost use Rattle.float_board.specs.Board.{floats_answered, play_stream_floats_from_of, play_stream_floats_of};

use board::lead::lead;
use common::Answer;
use common::refusals::Refusal;
use decoder::stream::Stream;
use float_machine::{Floats, MIXED};
use floats::{Pair, Sides};
use reader::module::Module;

// What the call returns: its answer, and the record of the last left and right.
#[derive(Clone, Copy)]
pub struct FloatAnswer {
    pub answer: Answer,
    pub pair: Pair,
}

// Plays a stream's ticks from one on, of any bytes and for any sides.
fn try_floats(
    stream: &[u8],
    file: &[u8],
    first: usize,
    sides: u32,
    pair: Pair,
    out: &mut [f32],
) -> Result<FloatAnswer, Refusal>
    ensures { outcome (floats_answered pair result) out.new ≡ play_stream_floats_from_of file.now stream.now first sides pair out.old }
{
    let module = Module::read(file)?;
    let sides = Sides::try_from(sides)?;
    let stream = Stream::read(board::scope(&module), stream)?;
    let (frames, ticks) = lead(&module, &stream, stream.header.keeps(), first);
    let mut sounder = Floats {
        frames,
        sides,
        last: pair,
        next: 0,
        mixed: [0; MIXED],
    };
    let count = board::play_ticks(&mut sounder, ticks, out);
    Ok(FloatAnswer {
        answer: common::accept(count),
        pair: sounder.last,
    })
}

// Plays a stream's ticks from one on, counted from 0: the largest number of whole ticks whose numbers fit into out; the rest of out stays. `pair` is
// the record of the last left and right, which the call hands back; a refusal and a call that plays no frame hand it back as it was.
pub fn play_stream_floats_from(
    stream: &[u8],
    file: &[u8],
    first: usize,
    sides: u32,
    pair: Pair,
    out: &mut [f32],
) -> FloatAnswer
    ensures { outcome result out.new ≡ play_stream_floats_from_of file.now stream.now first sides pair out.old }
{
    match try_floats(stream, file, first, sides, pair, out) {
        Ok(played) => played,
        Err(e) => FloatAnswer {
            answer: e.into(),
            pair,
        },
    }
}

// The same from the stream's beginning.
pub fn play_stream_floats(
    stream: &[u8],
    file: &[u8],
    sides: u32,
    pair: Pair,
    out: &mut [f32],
) -> FloatAnswer
    ensures { outcome result out.new ≡ play_stream_floats_of file.now stream.now sides pair out.old }
{
    play_stream_floats_from(stream, file, 0, sides, pair, out)
}
