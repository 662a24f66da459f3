// A board's registers, its legality, and what a call tells of it.
ghost use Rattle.std.specs.Prelude.{◌≡◌, ◌^◌, ◌<◌, length};
ghost use Rattle.common.specs.Limits.{width};
ghost use Rattle.reader.specs.Modules.{as_module};
ghost use Rattle.voice.specs.Legal.{legal_voices};
ghost use Rattle.arrival.specs.Arrive.{taken};
ghost use Rattle.arrival.specs.Feed.{fed};
ghost use Rattle.feed.specs.Feed.{register_of, registers_of, legal_remainder, fault_place, reply_since};
ghost use Rattle.feed.specs.Judged.{Tested};

use crate::{Board, Reply};
use arrival::Arrival;
use common::Answer;
use common::limits::WIDTH;
use decoder::reading::Scope;
use machine::Machine;
use reader::module::Module;
use ticks::Command;
use voice::Voice;

#[tactic(auto, unfolding(crate::specs::Feed::register_of))]
fn register(voice: Voice) -> Command
    ensures { result ≡ register_of voice }
{
    Command {
        sample: voice.sample,
        volume: voice.volume,
        period: voice.period,
        start: false,
        offset: 0,
    }
}

// The voices' numbers as the registers.
pub(crate) fn registers(machine: &Machine) -> [Command; WIDTH]
    ensures { result ≡ registers_of machine.now }
{
    machine.voices.map(register)
}

// What a stream for a module is read by.
pub(crate) fn scope(source: &Module) -> Scope
    ensures { (result.last ≡ source.now.layout.samples) × (result.channels ≡ source.now.layout.channels) }
{
    Scope {
        last: source.layout.samples as u32,
        channels: source.layout.channels,
    }
}

// Whether voices, as many as there are channels in an array, are legal for a module.
fn legal_voices(source: &Module, voices: [Voice; WIDTH]) -> bool
    ensures { (result ≡ legal_voices source.now.layout source.now.extents voices) × (length voices ≡ width) }
{
    voice::legal::legal_for(source, &voices)
}

#[tactic(auto, unfolding(crate::specs::Feed::legal_remainder))]
fn legal_remainder(machine: &Machine) -> bool
    ensures { result ≡ legal_remainder machine.now }
{
    machine.remainder == 0 || machine.remainder < machine.tempo
}

// The place of the fault that is kept, or 0.
#[tactic(auto, unfolding(crate::specs::Feed::fault_place))]
fn fault_place(arrival: &Arrival) -> usize
    ensures { result ≡ fault_place arrival.now }
{
    if arrival.number == 0 {
        0
    } else {
        arrival.fault
    }
}

impl Board {
    // Whether a board that a caller lent is legal for a module.
    pub(crate) fn is_legal(&self, source: &Module) -> bool
        ensures { Tested (as_module source.now) self.now result }
    {
        let voices = self.machine.voices;
        let voiced = legal_voices(source, voices);
        let rested = legal_remainder(&self.machine);
        let arrived = self
            .arrival
            .is_legal(&scope(source), &registers(&self.machine));
        voiced & rested & arrived
    }

    // What a call tells since an arrival: the fault that is kept or 0, how many ticks were played and how many bytes were taken.
    #[tactic(auto, unfolding(crate::specs::Feed::reply_since))]
    pub(crate) fn reply_since(self, before: &Arrival) -> Reply
        requires { (taken before.now < 2 ^ 64) × (taken self.arrival < 2 ^ 64) }
        ensures { result ≡ reply_since before.now (fed self.arrival self.machine) }
    {
        let arrival = self.arrival;
        Reply {
            answer: Answer {
                number: arrival.number,
                place: fault_place(&arrival),
                count: arrival.records.saturating_sub(before.records) as usize,
            },
            taken: (arrival.place + arrival.kept).saturating_sub(before.place + before.kept),
            board: self,
        }
    }
}
