// What the C calls leave in the cells that they are lent: an answer's, a state's, and those of the record of the last left and right.
#![tactic(auto)]

ghost use Rattle.std.specs.Prelude.{◌≡◌};
ghost use Rattle.player.specs.State.{reply};
ghost use Rattle.player.specs.Quiet.{why, why_answer};
ghost use Rattle.replies.specs.Answers.{answer_cells, cells_after};
ghost use Rattle.replies.specs.Pairs.{pair_in, pair_after, pair_tick_after};

use cells::CELLS;
use common::Answer;
use common::refusals::Refusal;
use floats::Pair;
use player::{State, Why};
use voice::quiet::Cause;

// An answer's cells.
pub const ANSWER_CELLS: usize = 3;

// A record's two floats.
pub const PAIR_CELLS: usize = 2;

pub fn put_answer(a: Answer, answer: &mut [u64; ANSWER_CELLS])
    ensures { answer.new ≡ answer_cells a }
{
    *answer = [u64::from(a.number), a.place as u64, a.count as u64];
}

// What a call says, and the state after it: a refusal writes the answer alone.
pub fn put_reply(
    said: Answer,
    after: State,
    state: &mut [u32; CELLS],
    answer: &mut [u64; ANSWER_CELLS],
)
    ensures answered { answer.new ≡ answer_cells said }
    ensures stated { state.new ≡ cells_after (reply said after) state.old }
{
    put_answer(said, answer);
    if said.number != 0 {
        return;
    }
    *state = cells::cells_of(after);
}

// The record of the last left and right in cells.
pub fn pair_of(cells: [f32; PAIR_CELLS], tick: u32) -> Pair
    ensures { result ≡ pair_in cells tick }
{
    Pair {
        left: cells[0],
        right: cells[1],
        tick: tick,
    }
}

// A refusal leaves the record's cells.
pub fn put_pair(a: Answer, last: Pair, pair: &mut [f32; PAIR_CELLS], tick: &mut u32)
    ensures paired { pair.new ≡ pair_after a last pair.old }
    ensures ticked { tick.new ≡ pair_tick_after a last tick.old }
{
    if a.number != 0 {
        return;
    }
    *pair = [last.left, last.right];
    *tick = last.tick;
}

// The count is the cause's number.
pub fn why_answer(why: Why) -> Answer
    ensures { result ≡ why_answer why }
{
    match why {
        Ok(cause) => common::accept(cause.into()),
        Err(answer) => answer,
    }
}

// The same of what the call returns.
pub fn cause_answer(caused: Result<Cause, Refusal>) -> Answer
    ensures { result ≡ why_answer (why caused) }
{
    why_answer(caused.map_err(Answer::from))
}
