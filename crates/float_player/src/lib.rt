// Playing as 32-bit floats, for a page of one side or two. The call judges the module again, and answers any state, sides and record.
#![tactic(auto)]

ghost use Rattle.std.specs.Prelude.{◌≡◌, true};
ghost use Rattle.common.specs.Answers.{accepted, outcome};
ghost use Rattle.reader.specs.Modules.{as_module};
ghost use Rattle.floats.specs.Asked.{count_of};
ghost use Rattle.float_machine.specs.Machine.{float_state};
ghost use Rattle.player.specs.State.{legal_state, reply};
ghost use Rattle.float_player.specs.Play.{float_reply, floats_answered, floats_from, play_floats_of};

use common::refusals::Refusal;
use float_machine::{Floats, MIXED};
use floats::{Pair, Sides};
use machine::sounder::Integers;
use player::playing::{after_ticks, machine_of, play_song};
use player::{Reply, State};
use reader::module::Module;

// What the call returns: its answer, the state after it, and the record of the last left and right.
#[derive(Clone, Copy)]
pub struct FloatReply {
    pub reply: Reply,
    pub pair: Pair,
}

// Plays at most n ticks of a module from a legal state.
fn play_ticks(
    m: &Module,
    state: State,
    n: u32,
    sides: Sides,
    pair: Pair,
    out: &mut [f32],
) -> FloatReply
    requires { legal_state (as_module m.now) state ≡ true }
    ensures { outcome result out.new ≡ floats_from (as_module m.now) state n (count_of sides) pair out.old }
{
    let frames = Integers {
        module: m,
        keeps: true,
        machine: machine_of(state),
    };
    let mut sounder = Floats {
        frames,
        sides,
        last: pair,
        next: 0,
        mixed: [0; MIXED],
    };
    let (song, count) = play_song(&mut sounder, state.song, n, out);
    FloatReply {
        reply: after_ticks(song, sounder.frames.machine, count),
        pair: sounder.last,
    }
}

// The same of a file, any state and any sides.
fn try_floats(
    file: &[u8],
    state: State,
    ticks: u32,
    sides: u32,
    pair: Pair,
    out: &mut [f32],
) -> Result<FloatReply, Refusal>
    ensures { outcome (floats_answered state pair result) out.new ≡ play_floats_of file.now state ticks sides pair out.old }
{
    let module = player::legality::admit(file, &state)?;
    let sides = Sides::try_from(sides)?;
    Ok(play_ticks(&module, state, ticks, sides, pair, out))
}

// Plays the largest number of whole ticks, up to `ticks`, whose numbers fit into out; the rest of out stays. `pair` is the record of the last
// left and right, which the call hands back; a refusal and a call that plays no frame hand it back as it was.
pub fn play_floats(
    file: &[u8],
    state: State,
    ticks: u32,
    sides: u32,
    pair: Pair,
    out: &mut [f32],
) -> FloatReply
    ensures { outcome result out.new ≡ play_floats_of file.now state ticks sides pair out.old }
{
    match try_floats(file, state, ticks, sides, pair, out) {
        Ok(played) => played,
        Err(e) => FloatReply {
            reply: player::refuse(e.rule.into(), e.place, state),
            pair,
        },
    }
}
