// An open header: the faults that its bytes show, and how it closes.
ghost use Rattle.std.specs.Prelude.{◌≡◌, ◌≤◌};
ghost use Rattle.arrival.specs.Arrive.{headed, shows_by, unknown, other, header_shows};
ghost use Rattle.arrival.specs.Answers.{settled};

use crate::Arrival;
use common::bytes::four;
use common::refusals::{Refusal, Rule};
use decoder::stream::is_known;
use records::{CHANNELS_PLACE, LEAST_PLACE, VERSION_PLACE};

impl Arrival {
    // Whether the byte at a place of an open header is in, and isn't the one by which the declared end shows.
    #[tactic(auto, unfolding(crate::specs::Arrive::shows_by))]
    fn shows_by(&self, at: usize, ended: bool) -> bool
        requires { at ≤ 5 }
        ensures { result ≡ shows_by at self.now.kept ended }
    {
        at < self.kept && !(ended && self.kept == at + 1)
    }

    // Whether an open header has a version that isn't known.
    #[tactic(auto, unfolding(crate::specs::Arrive::unknown))]
    fn is_unknown(&self, ended: bool) -> bool
        ensures { result ≡ unknown self.now.bytes self.now.kept ended }
    {
        !is_known(u32::from(self.header().version())) && self.shows_by(VERSION_PLACE, ended)
    }

    // Whether it is for another number of channels.
    #[tactic(auto, unfolding(crate::specs::Arrive::other))]
    fn is_other(&self, channels: usize, ended: bool) -> bool
        ensures { result ≡ other channels self.now.bytes self.now.kept ended }
    {
        let header = self.header();
        header.channels() != channels && self.shows_by(VERSION_PLACE + header.shift(), ended)
    }

    #[tactic(auto, using(crate::proofs::Laws::taken_all), unfolding(crate::specs::Arrive::header_shows, common::specs::Answers::refusing))]
    pub(crate) fn header_shows(&self, channels: usize) -> Result<(), Refusal>
        ensures { settled result self.now ≡ header_shows channels self.now }
    {
        let ended = self.is_ended();
        if self.is_unknown(ended) {
            return Err(Rule::StreamVersion.at(VERSION_PLACE));
        }
        if self.is_other(channels, ended) {
            return Err(Rule::StreamChannels.at(VERSION_PLACE));
        }
        if !ended {
            return Ok(());
        }
        if self.kept < LEAST_PLACE {
            return Err(Rule::StreamLength.at(self.total()));
        }
        Err(Rule::StreamChannels.at(VERSION_PLACE))
    }

    // The header is whole: its numbers are kept.
    pub(crate) fn close_header(&mut self)
        requires { self.old.place ≡ 0 }
        ensures { self.new ≡ headed self.old }
    {
        self.follow = four(&self.bytes, 0) as u32;
        self.version = u32::from(self.header().version());
        self.channels = u32::from(self.bytes[CHANNELS_PLACE]);
        self.count = self.header().count() as u32;
        self.place = self.kept;
        self.kept = 0;
    }
}
