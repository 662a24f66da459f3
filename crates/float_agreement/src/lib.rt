// Demand 3 for floats: a module played by itself and played by its stream, asked for the same sides, sound the same.
#![tactic(auto)]

ghost use Rattle.std.specs.Prelude.{◌≡◌, false, ◌≤◌, length};
ghost use Rattle.reader.specs.File.{module_of};
ghost use Rattle.reader.specs.Judge.{verdict};
ghost use Rattle.floats.specs.Frames.{unasked};
ghost use Rattle.translator.specs.Translate.{most_ticks, stream_of};
ghost use Rattle.float_agreement.specs.Demand.{FloatCalls, FloatAgreement};

use common::Answer;
use float_board::FloatAnswer;
use float_player::FloatReply;
use floats::Pair;
use player::State;

// What the three calls returned: the translator, the player and the stream player.
#[derive(Clone, Copy)]
pub struct FloatBoth {
    pub translated: Answer,
    pub played: FloatReply,
    pub streamed: FloatAnswer,
}

// Translates so many ticks of a module into the room, plays the module into one output and the stream into the other, both for the same
// sides, each with a record of its own. The stream player is lent the room's part that the translator counted, which is empty after a refusal.
pub fn play_both_floats(
    file: &[u8],
    ticks: u32,
    sides: u32,
    panel_pair: Pair,
    board_pair: Pair,
    room: &mut [u8],
    panel: &mut [f32],
    board: &mut [f32],
) -> FloatBoth
    ensures calls { FloatCalls file.now ticks sides panel_pair board_pair result room.old room.new panel.old panel.new board.old board.new }
    ensures agrees { (verdict (module_of file.now)).number ≡ 0
        → unasked sides ≡ false
        → ticks ≤ most_ticks
        → length (stream_of (module_of file.now) ticks) ≤ length room.old
        → FloatAgreement file.now ticks sides panel_pair board_pair result room.old room.new panel.old panel.new board.old board.new }
{
    let translated = Answer::from(translator::translate(file, ticks, room));
    let played = float_player::play_floats(file, State::default(), ticks, sides, panel_pair, panel);
    let len = translated.count;
    let streamed = float_board::play_stream_floats(&room[..len], file, sides, board_pair, board);
    FloatBoth {
        translated: translated,
        played: played,
        streamed: streamed,
    }
}
