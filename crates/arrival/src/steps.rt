// What a byte does: it is kept, and shows a fault, closes the header or completes a record; and how the stream's end is told.
ghost use Rattle.std.specs.Prelude.{◌≡◌, ◌+◌, ◌^◌, ◌≤◌, ◌<◌, take};
ghost use Rattle.records.specs.Format.{read_record};
ghost use Rattle.arrival.specs.Arrive.{kept_bytes, taken, keep, played, header_step, record_step, step, closed};
ghost use Rattle.arrival.specs.Answers.{settled, as_step};
ghost use Rattle.arrival.specs.Ready.{Ready};

use crate::Arrival;
use common::limits::WIDTH;
use common::refusals::{Refusal, Rule};
use decoder::reading::{Scope, Unread};
use ticks::{Command, Tick};

impl Arrival {
    fn keep(&mut self, byte: u8)
        requires { self.old.kept < kept_bytes }
        ensures { self.new ≡ keep self.old byte }
    {
        self.bytes[self.kept] = byte;
        self.kept += 1;
    }

    // A record is whole.
    pub(crate) fn play(&mut self)
        requires few { taken self.old < 2 ^ 41 }
        requires more { self.old.records + 1 < 2 ^ 32 }
        ensures { self.new ≡ played self.old }
    {
        self.place += self.kept;
        self.kept = 0;
        self.records += 1;
    }

    #[tactic(auto, unfolding(crate::specs::Arrive::header_step))]
    fn header_step(&mut self, channels: usize) -> Result<(), Refusal>
        requires { self.old.place ≡ 0 }
        ensures { settled result self.new ≡ header_step channels self.old }
    {
        if self.kept != self.header().first_record() {
            return self.header_shows(channels);
        }
        self.close_header();
        self.end_shows()
    }

    #[tactic(auto, unfolding(crate::specs::Arrive::record_step, decoder::specs::Results::as_result))]
    fn record_step(&mut self, scope: &Scope, registers: &[Command; WIDTH]) -> Option<Tick>
        requires few { taken self.old < 2 ^ 41 }
        requires more { self.old.records + 1 < 2 ^ 32 }
        requires room { self.old.kept ≤ kept_bytes }
        ensures { as_step result self.new ≡ record_step self.old (read_record scope.now.last scope.now.channels (take self.old.kept self.old.bytes) 0 registers.now) }
    {
        match scope.read_record(self.open_bytes(), 0, registers) {
            Ok(record) => {
                self.play();
                self.settle(self.end_shows());
                Some(record.tick)
            }
            Err(Unread::Short) => {
                self.settle(self.open_shows());
                None
            }
            Err(Unread::Bad) => {
                self.settle(Err(Rule::StreamRecord.at(self.place)));
                None
            }
        }
    }

    // What a byte does: the tick of the record that it completes, if it does.
    #[tactic(auto, using(crate::proofs::Laws::taken_all), unfolding(crate::specs::Arrive::step))]
    pub fn step(&mut self, scope: &Scope, registers: &[Command; WIDTH], byte: u8) -> Option<Tick>
        requires { self.old.number ≡ 0 → Ready self.old }
        ensures { as_step result self.new ≡ step scope.now.last scope.now.channels registers.now self.old byte }
    {
        if self.number != 0 {
            return None;
        }
        if self.is_ended() {
            self.settle(Err(Rule::StreamLength.at(self.total() + 1)));
            return None;
        }
        self.keep(byte);
        if self.place == 0 {
            let shown = self.header_step(scope.channels);
            self.settle(shown);
            return None;
        }
        if self.count <= self.records {
            let left_over = Rule::StreamRecord.at(self.place);
            self.settle(Err(left_over));
            return None;
        }
        self.record_step(scope, registers)
    }

    // The stream's end is told: short of the declared end it is a fault, which is kept.
    #[tactic(auto, unfolding(crate::specs::Arrive::closed))]
    pub fn close(&mut self)
        requires { taken self.old < 2 ^ 40 }
        ensures { self.new ≡ closed self.old }
    {
        if self.number == 0 && !self.is_ended() {
            self.settle(Err(Rule::StreamLength.at(self.place + self.kept)));
        }
    }
}
