// The player: states, play, touches and page changes. Every call judges the module again, and answers any state, which a refusal leaves as it was.
#![tactic(auto)]

ghost use Rattle.std.specs.Prelude.{◌≡◌};
ghost use Rattle.common.specs.Answers.{refused, accepted, outcome, answered, judged};
ghost use Rattle.player.specs.State.{fresh_state, reply};
ghost use Rattle.player.specs.Play.{play_of};
ghost use Rattle.player.specs.Touch.{change_page_of, touch_of};
ghost use Rattle.player.specs.Burst.{as_burst, burst_of};
ghost use Rattle.player.specs.Quiet.{why, why_quiet_of};

use common::Answer;
use common::limits::WIDTH;
use common::refusals::{Refusal, Rule};
use sequencer::Song;
use touching::{Burst, Touch};
use voice::Voice;
use voice::quiet::Cause;

pub mod legality;
mod moves;
pub mod playing;
mod quiet;
pub mod touching;

// A state: the song, its voices and the remainder of the tick before. Any numbers may stand in it.
#[derive(Clone, Copy)]
pub struct State {
    pub song: Song,
    pub voices: [Voice; WIDTH],
    pub remainder: u32,
}

// What a call returns: its answer, and the state after it.
#[derive(Clone, Copy)]
pub struct Reply {
    pub answer: Answer,
    pub state: State,
}

// What asking for the cause of quiet answers: the cause, or any refusal's answer.
pub type Why = Result<Cause, Answer>;

pub fn refuse(number: u32, place: usize, state: State) -> Reply
    ensures { result ≡ reply (refused number place) state }
{
    Reply {
        answer: common::refuse(number, place),
        state: state,
    }
}

// The fresh state.
impl Default for State {
    ghost is_default = { λ state. state ≡ fresh_state };

    #[tactic(auto, unfolding(crate::specs::State::fresh_state, machine::specs::Machine::fresh_machine))]
    fn default() -> State {
        let voices = machine::fresh().voices;
        State {
            song: Song::default(),
            voices,
            remainder: 0,
        }
    }
}

// A state's default by its name.
pub fn fresh() -> State
    ensures { result ≡ fresh_state }
{
    State::default()
}

// Plays the largest number of whole ticks, up to `ticks`, whose frames fit into out; the rest of out stays. Counts them.
pub fn play(file: &[u8], state: &mut State, ticks: u32, out: &mut [i16]) -> Result<usize, Refusal>
    ensures { outcome (reply (answered result) state.new) out.new ≡ play_of file.now state.old ticks out.old }
{
    let module = legality::admit(file, state)?;
    let played = playing::play_ticks(&module, *state, ticks, out);
    *state = played.state;
    Ok(played.answer.count)
}

// A page change: touches made on the page before are refused from now on.
pub fn change_page(file: &[u8], state: &mut State) -> Result<(), Refusal>
    ensures { reply (judged result) state.new ≡ change_page_of file.now state.old }
{
    legality::admit(file, state)?;
    state.song = moves::page_changed(state.song);
    Ok(())
}

// A touch.
pub fn touch(file: &[u8], state: &mut State, touch: Touch) -> Result<(), Refusal>
    ensures { reply (judged result) state.new ≡ touch_of file.now state.old touch.page touch.made touch.position }
{
    let module = legality::admit(file, state)?;
    touching::take(module.positions, state, touch)
}

// A burst of touches; an answer for each, and the rest of answers stays.
pub fn touch_burst(
    file: &[u8],
    state: &mut State,
    burst: &Burst,
    answers: &mut [u32],
) -> Result<usize, Refusal>
    ensures { outcome (reply (answered result) state.new) answers.new ≡ burst_of file.now state.old (as_burst burst.now) answers.old }
{
    let module = legality::admit(file, state)?;
    touching::take_burst(module.positions, state, burst, answers)
}

// Why a channel, from 1, is quiet in the next frame.
pub fn why_quiet(file: &[u8], state: &State, channel: u32) -> Result<Cause, Refusal>
    ensures { why result ≡ why_quiet_of file.now state.now channel }
{
    let module = legality::admit(file, state)?;
    if channel == 0 {
        return Err(Rule::Channel.at(0));
    }
    let i = channel as usize - 1;
    if module.layout.channels <= i {
        return Err(Rule::Channel.at(0));
    }
    Ok(quiet::voice_cause(&module, state.voices[i]))
}
