// Touches of an accepted module's song, from a legal state: one, and as many as are handed over at once.
ghost use Rattle.std.specs.Prelude.{◌≡◌, ◌≤◌, max, not, ◌&&◌, length, ◌==◌};
ghost use Rattle.common.specs.Answers.{accepted, outcome, answered, judged};
ghost use Rattle.player.specs.State.{reply};
ghost use Rattle.player.specs.Touch.{age_of};
ghost use Rattle.player.specs.Burst.{as_burst, longest, taken_from};
ghost use Rattle.player.specs.Touching.{touch_from, burst_from};

use crate::State;
use common::Answer;
use common::refusals::{Refusal, Rule};

// The oldest age at which a touch still counts, in ticks.
const OLDEST: u32 = 25;

// The most touches of a burst.
const MOST_TOUCHES: usize = 64;

// A touch: made on a page, at a clock, for a position of the song.
#[derive(Clone, Copy)]
pub struct Touch {
    pub page: u32,
    pub made: u32,
    pub position: u32,
}

impl Touch {
    fn age(self, clock: u32) -> u32
        ensures { result ≡ age_of clock self.made }
    {
        std::num::wrapping_sub_u32(clock, self.made)
    }
}

// A touch: from another page, too old, past the song, or taken.
pub fn take(positions: u32, state: &mut State, touch: Touch) -> Result<(), Refusal>
    ensures { reply (judged result) state.new ≡ touch_from positions state.old touch.page touch.made touch.position }
{
    let desk = state.song.desk;
    if touch.page != desk.page {
        return Err(Rule::TouchPage.at(0));
    }
    if touch.age(desk.clock) > OLDEST {
        return Err(Rule::TouchAge.at(0));
    }
    if touch.position >= positions {
        return Err(Rule::TouchPosition.at(0));
    }
    state.song = crate::moves::touched_at(state.song, touch.position);
    Ok(())
}

// Touches as three lists, the form in which C lends them: the page, the clock and the position of each.
#[derive(Clone, Copy)]
pub struct Burst<'a> {
    pub pages: &'a [u32],
    pub mades: &'a [u32],
    pub positions: &'a [u32],
}

impl<'a> Burst<'a> {
    // The largest of the lists' lengths.
    fn longest(&self) -> usize
        ensures { result ≡ longest (as_burst self.now) }
    {
        self.pages
            .len()
            .max(self.mades.len().max(self.positions.len()))
    }

    // Whether the lists' lengths differ.
    fn is_unequal(&self) -> bool
        ensures { result ≡ not (length self.now.pages.now == length self.now.mades.now && length self.now.mades.now == length self.now.positions.now) }
    {
        let marks = self.mades.len();
        (self.pages.len() != marks) | (marks != self.positions.len())
    }
}

// Takes the touches in their order, each from the state that the one before left.
fn take_each(last: u32, state: &mut State, burst: &Burst, answers: &mut [u32])
    requires equal { (length burst.now.pages.now ≡ length burst.now.mades.now) × (length burst.now.mades.now ≡ length burst.now.positions.now) }
    requires room { length burst.now.pages.now ≤ length answers.old }
    ensures { outcome (reply (accepted (length burst.now.pages.now)) state.new) answers.new ≡ taken_from (touch_from last) (as_burst burst.now) state.old answers.old }
{
    for k in 0..burst.pages.len() {
        let touch = Touch {
            page: burst.pages[k],
            made: burst.mades[k],
            position: burst.positions[k],
        };
        answers[k] = Answer::from(take(last, state, touch)).number;
    }
}

// A burst: too many, too little room, lists of different lengths, or taken.
pub fn take_burst(
    last: u32,
    state: &mut State,
    burst: &Burst,
    answers: &mut [u32],
) -> Result<usize, Refusal>
    ensures { outcome (reply (answered result) state.new) answers.new ≡ burst_from last state.old (as_burst burst.now) answers.old }
{
    let most = burst.longest();
    if most > MOST_TOUCHES {
        return Err(Rule::BurstLength.at(0));
    }
    if answers.len() < most {
        return Err(Rule::BurstRoom.at(0));
    }
    if burst.is_unequal() {
        return Err(Rule::BurstLists.at(0));
    }
    take_each(last, state, burst, answers);
    Ok(burst.pages.len())
}
