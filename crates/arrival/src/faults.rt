// Faults: the one that is kept, and those that show at the declared end.
ghost use Rattle.std.specs.Prelude.{◌≡◌};
ghost use Rattle.arrival.specs.Arrive.{end_shows, open_shows, kept_fault};
ghost use Rattle.arrival.specs.Answers.{settled};

use crate::Arrival;
use common::limits::is_between;
use common::refusals::{Refusal, Rule};

// Whether a number is 0 or one of the faults that are kept.
#[tactic(auto, unfolding(crate::specs::Arrive::kept_fault))]
pub fn is_kept_fault(number: u32) -> bool
    ensures { result ≡ kept_fault number }
{
    number == 0
        || is_between(
            u32::from(Rule::StreamLength),
            u32::from(Rule::StreamRecord),
            number,
        )
        || number == u32::from(Rule::StreamChannels)
}

impl Arrival {
    // Keeps the fault that shows, if one does.
    pub(crate) fn settle(&mut self, shown: Result<(), Refusal>)
        ensures { self.new ≡ settled shown self.old }
    {
        if let Err(e) = shown {
            self.number = u32::from(e.rule);
            self.fault = e.place;
        }
    }

    // At the declared end, a missing record.
    #[tactic(auto, unfolding(crate::specs::Arrive::end_shows, common::specs::Answers::refusing))]
    pub(crate) fn end_shows(&self) -> Result<(), Refusal>
        ensures { settled result self.now ≡ end_shows self.now }
    {
        if self.records < self.count && self.is_ended() {
            return Err(Rule::StreamRecord.at(self.place));
        }
        Ok(())
    }

    // At the declared end, an open record.
    #[tactic(auto, unfolding(crate::specs::Arrive::open_shows, common::specs::Answers::refusing))]
    pub(crate) fn open_shows(&self) -> Result<(), Refusal>
        ensures { settled result self.now ≡ open_shows self.now }
    {
        if self.is_ended() {
            return Err(Rule::StreamRecord.at(self.place));
        }
        Ok(())
    }
}
