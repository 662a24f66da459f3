// Whether an arrival that a caller lent is legal: its numbers, and the fault that its bytes show.
ghost use Rattle.std.specs.Prelude.{◌≡◌, true, ◌^◌, ◌≤◌, ◌<◌, length, take};
ghost use Rattle.records.specs.Format.{read_record};
ghost use Rattle.arrival.specs.Arrive.{kept_bytes, taken, faulty, stated_channels, record_shows, rest_shows, shows, keeps, most_records, legal_arrival};
ghost use Rattle.arrival.specs.Answers.{settled};

use crate::{Arrival, KEPT_BYTES};
use common::limits::WIDTH;
use common::refusals::{Refusal, Rule};
use decoder::reading::{Scope, Unread};
use decoder::stream::is_known;
use records::VERSION_PLACE;
use ticks::Command;

impl Arrival {
    // How many records there may be: none while the header is open.
    #[tactic(auto, unfolding(crate::specs::Arrive::most_records))]
    fn most_records(&self) -> u32
        ensures { result ≡ most_records self.now }
    {
        if self.place == 0 { 0 } else { self.count }
    }

    #[tactic(auto, unfolding(crate::specs::Arrive::stated_channels))]
    fn stated_channels(&self) -> u32
        ensures { result ≡ stated_channels self.now }
    {
        if self.version < u32::from(records::COUNTED_VERSION) {
            return records::OLD_CHANNELS as u32;
        }
        self.channels
    }

    // What an open record shows.
    #[tactic(auto, unfolding(crate::specs::Arrive::record_shows, decoder::specs::Results::as_result))]
    fn record_shows(&self, scope: &Scope, registers: &[Command; WIDTH]) -> Result<(), Refusal>
        requires { self.now.kept ≤ kept_bytes }
        ensures { settled result self.now ≡ record_shows self.now (read_record scope.now.last scope.now.channels (take self.now.kept self.now.bytes) 0 registers.now) }
    {
        match scope.read_record(self.open_bytes(), 0, registers) {
            Ok(_) => Err(Rule::State.at(0)),
            Err(Unread::Short) => self.open_shows(),
            Err(Unread::Bad) => Err(Rule::StreamRecord.at(self.place)),
        }
    }

    // What the kept bytes after a closed header show.
    #[tactic(auto, unfolding(crate::specs::Arrive::rest_shows))]
    fn rest_shows(&self, scope: &Scope, registers: &[Command; WIDTH]) -> Result<(), Refusal>
        ensures { settled result self.now ≡ rest_shows scope.now.last scope.now.channels registers.now self.now }
    {
        if self.kept == 0 {
            return self.end_shows();
        }
        if KEPT_BYTES < self.kept {
            return Err(Rule::State.at(0));
        }
        if self.count <= self.records {
            return Err(Rule::StreamRecord.at(self.place));
        }
        self.record_shows(scope, registers)
    }

    // The first fault that the kept bytes and the numbers of a closed header show.
    #[tactic(auto, unfolding(crate::specs::Arrive::shows))]
    fn shows(&self, scope: &Scope, registers: &[Command; WIDTH]) -> Result<(), Refusal>
        ensures { settled result self.now ≡ shows scope.now.last scope.now.channels registers.now self.now }
    {
        if self.place == 0 {
            if self.header().first_record() <= self.kept {
                return Err(Rule::State.at(0));
            }
            return self.header_shows(scope.channels);
        }
        if !is_known(self.version) {
            return Err(Rule::StreamVersion.at(VERSION_PLACE));
        }
        if self.stated_channels() as usize != scope.channels {
            return Err(Rule::StreamChannels.at(VERSION_PLACE));
        }
        self.rest_shows(scope, registers)
    }

    // Whether the fault that shows, if one does, is the one that is kept.
    #[tactic(auto, unfolding(crate::specs::Arrive::keeps))]
    fn keeps(&self, shown: Result<(), Refusal>) -> bool
        ensures { result ≡ keeps self.now (settled shown (faulty 0 0 self.now)) }
    {
        match shown {
            Ok(()) => true,
            Err(e) => self.number == u32::from(e.rule) && self.fault == e.place,
        }
    }

    // Whether an arrival that a caller lent is legal. The fault is looked for as if none were kept.
    #[tactic(auto, unfolding(crate::specs::Arrive::legal_arrival))]
    pub fn is_legal(&self, scope: &Scope, registers: &[Command; WIDTH]) -> bool
        ensures is { result ≡ legal_arrival scope.now.last scope.now.channels registers.now self.now }
        ensures few { result ≡ true → taken self.now < 2 ^ 40 }
        ensures long { length self.now.bytes ≡ kept_bytes }
    {
        if self.most_records() < self.records {
            return false;
        }
        if !self.is_within(self.kept) || !crate::is_kept_fault(self.number) {
            return false;
        }
        let bare = Arrival {
            number: 0,
            fault: 0,
            ..*self
        };
        self.keeps(bare.shows(scope, registers))
    }
}
