// What plays a module's ticks one by one, whatever its numbers are; and the one that plays them as 16-bit numbers.
ghost use Rattle.std.specs.Prelude.{◌≡◌, ◌+◌, ◌<◌, ◌≤◌, ℕ};
ghost use Rattle.common.specs.Limits.{greatest_tempo};
ghost use Rattle.reader.specs.Modules.{as_module};
ghost use Rattle.voice.specs.LegalFacts.{Ready};
ghost use Rattle.machine.specs.declared.Machine.{Machine};
ghost use Rattle.machine.specs.Machine.{rested_at};
ghost use Rattle.machine.specs.Turn.{answered, turn_of};
ghost use Rattle.machine.specs.Sounding.{Way, Due, integers};

use crate::{Machine, carried_at, kept_at, length_at};
use reader::module::Module;
use runs::FRAME_NUMBERS;
use ticks::Tick;

// A machine with what it plays with: `way` says how it plays, in each of its states, and a tick changes the state alone.
pub trait Sounder {
    type Number;

    ghost state_type: { Type 0 };

    ghost state: { Self → state_type };

    ghost way: { Self → Way Self.Number state_type };

    // How many ticks it has counted.
    ghost counted: { Self → ℕ };

    fn module(&self) -> &Module<'_>
        ensures { result.now ≡ (way self.now).source };

    // The machine that every sounder has in it.
    fn machine(&self) -> &Machine
        ensures { result.now ≡ (way self.now).held (state self.now) };

    // A tick into the front of out, whose rest stays, and how many numbers it took; nothing where they do not fit.
    fn play_tick(&mut self, tick: Tick, out: &mut [Self::Number]) -> Option<usize>
        requires due { Due (way self.old) (state self.old) tick }
        requires early { counted self.old < 4294967295 }
        ensures turned { answered result (state self.new) out.new ≡ turn_of (way self.old).plays (state self.old) tick out.old }
        ensures same { way self.new ≡ way self.old }
        ensures counted { counted self.new ≤ counted self.old + 1 };
}

// A module's ticks as 16-bit numbers, by the rule that keeps remainders or by the old one.
#[derive(Clone, Copy)]
pub struct Integers<'a> {
    pub module: &'a Module<'a>,
    pub keeps: bool,
    pub machine: Machine,
}

impl<'a> Integers<'a> {
    // A tick that nobody hears. No byte of the file is read.
    pub fn pass_tick(&mut self, tick: &Tick)
        requires ready { Ready (as_module self.old.module.now) self.old.module.now.extents self.old.machine.voices tick.now.commands }
        requires tempo { 0 < tick.now.tempo }
        requires remainder { self.old.machine.remainder ≤ greatest_tempo }
        ensures moved { self.new.machine ≡ (integers self.old.module.now self.old.keeps).plays.after self.old.machine tick.now }
        ensures module { self.new.module.now ≡ self.old.module.now }
        ensures keeps { self.new.keeps ≡ self.old.keeps }
    {
        let begins = carried_at(self.machine.tempo, self.machine.remainder, tick.tempo);
        let frames = length_at(tick.tempo, begins);
        let voices = &mut self.machine.voices;
        mixing::pass_by(self.module, voices, &tick.commands, frames);
        self.rest(tick.tempo, begins);
    }

    // What a tick of this tempo leaves beside the voices, after one that left this remainder.
    fn rest(&mut self, tempo: u32, begins: u32)
        requires { (0 < tempo) × (begins ≤ greatest_tempo) }
        ensures { self.new ≡ record self.old { machine = rested_at self.old.machine.voices self.old.keeps tempo begins } }
    {
        self.machine.tempo = tempo;
        self.machine.remainder = kept_at(self.keeps, tempo, begins);
    }
}

impl<'a> Sounder for Integers<'a> {
    type Number = i16;

    ghost state_type = { Machine };

    ghost state = { λ s. s.machine };

    ghost way = { λ s. integers s.module.now s.keeps };

    ghost counted = { λ s. 0 };

    fn module(&self) -> &Module<'_> {
        self.module
    }

    fn machine(&self) -> &Machine {
        &self.machine
    }

    fn play_tick(&mut self, tick: Tick, out: &mut [i16]) -> Option<usize>
        requires ready { Ready (as_module self.old.module.now) self.old.module.now.extents self.old.machine.voices tick.commands }
        requires tempo { 0 < tick.tempo }
        requires remainder { self.old.machine.remainder ≤ greatest_tempo }
        ensures turned { answered result self.new.machine out.new ≡ turn_of (integers self.old.module.now self.old.keeps).plays self.old.machine tick out.old }
        ensures same { integers self.new.module.now self.new.keeps ≡ integers self.old.module.now self.old.keeps }
        ensures counted { 0 ≤ 1 }
    {
        let begins = carried_at(self.machine.tempo, self.machine.remainder, tick.tempo);
        let frames = length_at(tick.tempo, begins);
        let size = FRAME_NUMBERS * frames;
        if out.len() < size {
            return None;
        }
        let voices = &mut self.machine.voices;
        mixing::mix_into(self.module, voices, &tick.commands, frames, out);
        self.rest(tick.tempo, begins);
        Some(size)
    }
}
