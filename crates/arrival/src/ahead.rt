// A record that lies ahead whole: it is found, and taken at once.
ghost use Rattle.std.specs.Prelude.{◌≡◌, true, ◌+◌, ◌^◌, ◌≤◌, ◌<◌, length};
ghost use Rattle.arrival.specs.Arrive.{kept_bytes, played, end_shows};
ghost use Rattle.arrival.specs.Ahead.{awaits, Found, laid};

use crate::Arrival;
use common::limits::WIDTH;
use decoder::reading::{Record, Scope};
use ticks::Command;

impl Arrival {
    // Whether a record may begin: no fault is kept, the header is closed, no byte of a record is in, and records are missing.
    #[tactic(auto, unfolding(crate::specs::Ahead::awaits, laws::specs::Ranges::all, laws::specs::Ranges::all_from))]
    pub fn awaits(&self) -> bool
        ensures { result ≡ awaits self.now }
    {
        self.number == 0 && self.place != 0 && self.kept == 0 && self.records < self.count
    }

    // The record that begins at a place of the bytes to come, where it is awaited, and all of it is there and within the declared length.
    pub fn ahead(
        &self,
        scope: &Scope,
        registers: &[Command; WIDTH],
        bytes: &[u8],
        at: usize,
    ) -> Option<Record>
        ensures { Found scope.now.last scope.now.channels registers.now self.now bytes.now at result }
    {
        if !self.awaits() {
            return None;
        }
        let record = scope.read_record(bytes, at, registers).ok()?;
        if self.is_within(record.next - at) {
            return Some(record);
        }
        None
    }

    // Bytes more are kept.
    fn keep_run(&mut self, run: &[u8])
        requires { self.old.kept + length run.now ≤ kept_bytes }
        ensures { self.new ≡ laid self.old run.now }
    {
        let kept = self.kept + run.len();
        self.bytes[self.kept..kept].copy_from_slice(run);
        self.kept = kept;
    }

    // The arrival after a whole record, which it awaited: its bytes are kept as if they had come one by one.
    pub fn with_record(mut self, run: &[u8]) -> Arrival
        requires awaited { awaits self ≡ true }
        requires room { length run.now ≤ kept_bytes }
        requires few { self.place + length run.now < 2 ^ 41 }
        ensures { result ≡ end_shows (played (laid self run.now)) }
    {
        self.keep_run(run);
        self.play();
        self.settle(self.end_shows());
        self
    }
}
