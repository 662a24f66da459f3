// The C library: each public call on plain numbers and slices. An answer is number, place and count; number 0 is accepted. A state is
// its cells, and any numbers may stand in them.
#![tactic(auto)]

ghost use Rattle.std.specs.Prelude.{◌≡◌};
ghost use Rattle.reader.specs.File.{channel_count, module_of};
ghost use Rattle.reader.specs.Judge.{judge_of};
ghost use Rattle.player.specs.State.{fresh_state};
ghost use Rattle.player.specs.Play.{play_of};
ghost use Rattle.player.specs.Touch.{change_page_of, touch_of};
ghost use Rattle.player.specs.Burst.{burst_of};
ghost use Rattle.player.specs.Quiet.{why_quiet_of, why_answer};
ghost use Rattle.cells.specs.Cells.{state_cells, state_of};
ghost use Rattle.translator.specs.Translate.{translate_of};
ghost use Rattle.board.specs.Board.{play_stream_from_of, play_stream_of};
ghost use Rattle.feed.specs.Feed.{fresh_board, board_feed_of, board_close_of};
ghost use Rattle.board_cells.specs.Cells.{board_cells, board_of, feed_cells, board_after};
ghost use Rattle.replies.specs.Answers.{answer_cells, cells_after};
ghost use Rattle.replies.specs.Pairs.{pair_after, pair_tick_after};
ghost use Rattle.capi.specs.Floats.{floats_on, stream_floats_on};
ghost use Rattle.capi.specs.Version.{library_version};

use board_cells::{BOARD_CELLS, FEED_CELLS, put_board, put_feed};
use cells::CELLS;
use player::State;
use player::touching::{Burst, Touch};
use replies::{ANSWER_CELLS, PAIR_CELLS, cause_answer, pair_of, put_answer, put_pair, put_reply};

// Major times 1,000,000, plus minor times 1,000, plus patch.
const VERSION: u32 = 8000;

// The version of the library that is linked.
#[unsafe(no_mangle)]
pub extern "C" fn lampthistle_version() -> u32
    ensures { result ≡ library_version }
{
    VERSION
}

// Judges a file.
#[unsafe(no_mangle)]
pub extern "C" fn lampthistle_judge(file: &[u8], answer: &mut [u64; ANSWER_CELLS])
    ensures { answer.new ≡ answer_cells (judge_of file.now) }
{
    put_answer(reader::judge(file), answer);
}

// How many channels a file has by its tag, 0 where it has no tag that is known.
#[unsafe(no_mangle)]
pub extern "C" fn lampthistle_channels(file: &[u8]) -> u32
    ensures { result ≡ channel_count (module_of file.now) }
{
    let layout = reader::offsets::layout_of(file);
    layout.channels as u32
}

// Writes the fresh state.
#[unsafe(no_mangle)]
pub extern "C" fn lampthistle_fresh(state: &mut [u32; CELLS])
    ensures { state.new ≡ state_cells fresh_state }
{
    *state = cells::cells_of(State::default());
}

// Plays the largest number of whole ticks, up to `ticks`, whose frames fit into out.
#[unsafe(no_mangle)]
pub extern "C" fn lampthistle_play(
    file: &[u8],
    state: &mut [u32; CELLS],
    ticks: u32,
    out: &mut [i16],
    answer: &mut [u64; ANSWER_CELLS],
)
    ensures answered { answer.new ≡ answer_cells (play_of file.now (state_of state.old) ticks out.old).reply.answer }
    ensures stated { state.new ≡ cells_after (play_of file.now (state_of state.old) ticks out.old).reply state.old }
    ensures sounded { out.new ≡ (play_of file.now (state_of state.old) ticks out.old).out }
{
    let mut after = cells::state_of(state);
    let played = player::play(file, &mut after, ticks, out);
    put_reply(played.into(), after, state, answer);
}

// A touch: made on a page, at a clock, for a position of the song.
#[unsafe(no_mangle)]
pub extern "C" fn lampthistle_touch(
    file: &[u8],
    state: &mut [u32; CELLS],
    page: u32,
    made: u32,
    position: u32,
    answer: &mut [u64; ANSWER_CELLS],
)
    ensures answered { answer.new ≡ answer_cells (touch_of file.now (state_of state.old) page made position).answer }
    ensures stated { state.new ≡ cells_after (touch_of file.now (state_of state.old) page made position) state.old }
{
    let mut after = cells::state_of(state);
    let touch = Touch {
        page,
        made,
        position,
    };
    let touched = player::touch(file, &mut after, touch);
    put_reply(touched.into(), after, state, answer);
}

// A burst of touches: the page, the clock when made and the position of each, and an answer for each.
#[unsafe(no_mangle)]
pub extern "C" fn lampthistle_touch_burst(
    file: &[u8],
    state: &mut [u32; CELLS],
    pages: &[u32],
    mades: &[u32],
    positions: &[u32],
    answers: &mut [u32],
    answer: &mut [u64; ANSWER_CELLS],
)
    ensures answered { answer.new ≡ answer_cells (burst_of file.now (state_of state.old) (record { pages = pages.now; mades = mades.now; positions = positions.now }) answers.old).reply.answer }
    ensures stated { state.new ≡ cells_after (burst_of file.now (state_of state.old) (record { pages = pages.now; mades = mades.now; positions = positions.now }) answers.old).reply state.old }
    ensures written { answers.new ≡ (burst_of file.now (state_of state.old) (record { pages = pages.now; mades = mades.now; positions = positions.now }) answers.old).out }
{
    let mut after = cells::state_of(state);
    let burst = Burst {
        pages,
        mades,
        positions,
    };
    let taken = player::touch_burst(file, &mut after, &burst, answers);
    put_reply(taken.into(), after, state, answer);
}

// A page change.
#[unsafe(no_mangle)]
pub extern "C" fn lampthistle_change_page(
    file: &[u8],
    state: &mut [u32; CELLS],
    answer: &mut [u64; ANSWER_CELLS],
)
    ensures answered { answer.new ≡ answer_cells (change_page_of file.now (state_of state.old)).answer }
    ensures stated { state.new ≡ cells_after (change_page_of file.now (state_of state.old)) state.old }
{
    let mut after = cells::state_of(state);
    let changed = player::change_page(file, &mut after);
    put_reply(changed.into(), after, state, answer);
}

// Why a channel is quiet.
#[unsafe(no_mangle)]
pub extern "C" fn lampthistle_why_quiet(
    file: &[u8],
    state: &[u32; CELLS],
    channel: u32,
    answer: &mut [u64; ANSWER_CELLS],
)
    ensures { answer.new ≡ answer_cells (why_answer (why_quiet_of file.now (state_of state.now) channel)) }
{
    let caused = player::why_quiet(file, &cells::state_of(state), channel);
    put_answer(cause_answer(caused), answer);
}

// Translates at most 65,535 ticks of a module, from fresh, to a stream in the room.
#[unsafe(no_mangle)]
pub extern "C" fn lampthistle_translate(
    file: &[u8],
    ticks: u32,
    room: &mut [u8],
    answer: &mut [u64; ANSWER_CELLS],
)
    ensures answered { answer.new ≡ answer_cells (translate_of file.now ticks room.old).reply }
    ensures written { room.new ≡ (translate_of file.now ticks room.old).out }
{
    put_answer(translator::translate(file, ticks, room).into(), answer);
}

// Plays a stream with a module's samples.
#[unsafe(no_mangle)]
pub extern "C" fn lampthistle_play_stream(
    stream: &[u8],
    file: &[u8],
    out: &mut [i16],
    answer: &mut [u64; ANSWER_CELLS],
)
    ensures answered { answer.new ≡ answer_cells (play_stream_of file.now stream.now out.old).reply }
    ensures sounded { out.new ≡ (play_stream_of file.now stream.now out.old).out }
{
    put_answer(board::play_stream(stream, file, out).into(), answer);
}

// Plays a stream's ticks from one on, counted from 0, with a module's samples.
#[unsafe(no_mangle)]
pub extern "C" fn lampthistle_play_stream_from(
    stream: &[u8],
    file: &[u8],
    from: u32,
    out: &mut [i16],
    answer: &mut [u64; ANSWER_CELLS],
)
    ensures answered { answer.new ≡ answer_cells (play_stream_from_of file.now stream.now from out.old).reply }
    ensures sounded { out.new ≡ (play_stream_from_of file.now stream.now from out.old).out }
{
    let first = from as usize;
    put_answer(
        board::play_stream_from(stream, file, first, out).into(),
        answer,
    );
}

// Plays the largest number of whole ticks, up to `ticks`, whose numbers fit into out, as floats for one side or two.
#[unsafe(no_mangle)]
pub extern "C" fn lampthistle_play_floats(
    file: &[u8],
    state: &mut [u32; CELLS],
    ticks: u32,
    sides: u32,
    out: &mut [f32],
    pair: &mut [f32; PAIR_CELLS],
    pair_tick: &mut u32,
    answer: &mut [u64; ANSWER_CELLS],
)
    ensures answered { answer.new ≡ answer_cells (floats_on file.now state.old ticks sides pair.old pair_tick.old out.old).reply.reply.answer }
    ensures stated { state.new ≡ cells_after (floats_on file.now state.old ticks sides pair.old pair_tick.old out.old).reply.reply state.old }
    ensures paired { pair.new ≡ pair_after (floats_on file.now state.old ticks sides pair.old pair_tick.old out.old).reply.reply.answer (floats_on file.now state.old ticks sides pair.old pair_tick.old out.old).reply.pair pair.old }
    ensures ticked { pair_tick.new ≡ pair_tick_after (floats_on file.now state.old ticks sides pair.old pair_tick.old out.old).reply.reply.answer (floats_on file.now state.old ticks sides pair.old pair_tick.old out.old).reply.pair pair_tick.old }
    ensures sounded { out.new ≡ (floats_on file.now state.old ticks sides pair.old pair_tick.old out.old).out }
{
    let old = pair_of(*pair, *pair_tick);
    let played = float_player::play_floats(file, cells::state_of(state), ticks, sides, old, out);
    let reply = played.reply;
    let last = played.pair;
    put_pair(reply.answer, last, pair, pair_tick);
    put_reply(reply.answer, reply.state, state, answer);
}

// Plays a stream's ticks from one on, counted from 0, with a module's samples, as floats for one side or two.
#[unsafe(no_mangle)]
pub extern "C" fn lampthistle_play_stream_floats_from(
    stream: &[u8],
    file: &[u8],
    from: u32,
    sides: u32,
    out: &mut [f32],
    pair: &mut [f32; PAIR_CELLS],
    pair_tick: &mut u32,
    answer: &mut [u64; ANSWER_CELLS],
)
    ensures answered { answer.new ≡ answer_cells (stream_floats_on file.now stream.now from sides pair.old pair_tick.old out.old).reply.answer }
    ensures paired { pair.new ≡ pair_after (stream_floats_on file.now stream.now from sides pair.old pair_tick.old out.old).reply.answer (stream_floats_on file.now stream.now from sides pair.old pair_tick.old out.old).reply.pair pair.old }
    ensures ticked { pair_tick.new ≡ pair_tick_after (stream_floats_on file.now stream.now from sides pair.old pair_tick.old out.old).reply.answer (stream_floats_on file.now stream.now from sides pair.old pair_tick.old out.old).reply.pair pair_tick.old }
    ensures sounded { out.new ≡ (stream_floats_on file.now stream.now from sides pair.old pair_tick.old out.old).out }
{
    let old = pair_of(*pair, *pair_tick);
    let first = from as usize;
    let played = float_board::play_stream_floats_from(stream, file, first, sides, old, out);
    let last = played.pair;
    put_pair(played.answer, last, pair, pair_tick);
    put_answer(played.answer, answer);
}

// Plays a stream with a module's samples, as floats for one side or two.
#[unsafe(no_mangle)]
pub extern "C" fn lampthistle_play_stream_floats(
    stream: &[u8],
    file: &[u8],
    sides: u32,
    out: &mut [f32],
    pair: &mut [f32; PAIR_CELLS],
    pair_tick: &mut u32,
    answer: &mut [u64; ANSWER_CELLS],
)
    ensures answered { answer.new ≡ answer_cells (stream_floats_on file.now stream.now 0 sides pair.old pair_tick.old out.old).reply.answer }
    ensures paired { pair.new ≡ pair_after (stream_floats_on file.now stream.now 0 sides pair.old pair_tick.old out.old).reply.answer (stream_floats_on file.now stream.now 0 sides pair.old pair_tick.old out.old).reply.pair pair.old }
    ensures ticked { pair_tick.new ≡ pair_tick_after (stream_floats_on file.now stream.now 0 sides pair.old pair_tick.old out.old).reply.answer (stream_floats_on file.now stream.now 0 sides pair.old pair_tick.old out.old).reply.pair pair_tick.old }
    ensures sounded { out.new ≡ (stream_floats_on file.now stream.now 0 sides pair.old pair_tick.old out.old).out }
{
    lampthistle_play_stream_floats_from(stream, file, 0, sides, out, pair, pair_tick, answer);
}

// Writes the board before its first byte.
#[unsafe(no_mangle)]
pub extern "C" fn lampthistle_board_fresh(board: &mut [u32; BOARD_CELLS])
    ensures { board.new ≡ board_cells fresh_board }
{
    *board = board_cells::cells_of(feed::board_fresh());
}

// Takes bytes of a stream as it arrives, and plays each record when its last byte is in: until none is left, one shows a fault, or a tick does not
// fit into out. The answer has how many bytes were taken as its fourth number.
#[unsafe(no_mangle)]
pub extern "C" fn lampthistle_board_feed(
    file: &[u8],
    board: &mut [u32; BOARD_CELLS],
    bytes: &[u8],
    out: &mut [i16],
    answer: &mut [u64; FEED_CELLS],
)
    ensures answered { answer.new ≡ feed_cells (board_feed_of file.now (board_of board.old) bytes.now out.old).reply }
    ensures stated { board.new ≡ board_after (board_feed_of file.now (board_of board.old) bytes.now out.old).reply board.old }
    ensures sounded { out.new ≡ (board_feed_of file.now (board_of board.old) bytes.now out.old).out }
{
    let reply = feed::board_feed(file, board_cells::board_of(board), bytes, out);
    put_board(reply, board);
    put_feed(reply, answer);
}

// The stream's end is told.
#[unsafe(no_mangle)]
pub extern "C" fn lampthistle_board_close(
    file: &[u8],
    board: &mut [u32; BOARD_CELLS],
    answer: &mut [u64; ANSWER_CELLS],
)
    ensures answered { answer.new ≡ answer_cells (board_close_of file.now (board_of board.old)).answer }
    ensures stated { board.new ≡ board_after (board_close_of file.now (board_of board.old)) board.old }
{
    let reply = feed::board_close(file, board_cells::board_of(board));
    put_board(reply, board);
    put_answer(reply.answer, answer);
}
