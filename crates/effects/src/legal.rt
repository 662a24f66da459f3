// Whether a channel's numbers are legal, and whether they are as fresh.
ghost use Rattle.std.specs.Prelude.{◌≡◌};
ghost use Rattle.effects.specs.Legal.{is_fresh, legal_channel};

use crate::Channel;
use common::limits::{LOUDEST, is_period};
use tuning::LAST_FINETUNE;

impl Channel {
    pub fn is_fresh(self) -> bool
        ensures { result ≡ is_fresh self }
    {
        self == Channel::default()
    }

    // The last sample is the layout's.
    #[tactic(auto, unfolding(crate::specs::Legal::legal_channel, laws::specs::Ranges::all, laws::specs::Ranges::all_from))]
    pub fn is_legal(self, last: u32) -> bool
        ensures { result ≡ legal_channel last self }
    {
        u32::from(self.latched) <= last
            && self.finetune <= LAST_FINETUNE
            && u32::from(self.volume) <= LOUDEST
            && is_period(u32::from(self.period))
            && is_period(u32::from(self.target))
            && self.vibrato.is_legal()
            && self.tremolo.is_legal()
    }
}
