// What plays a module's ticks as floats, for a page of one side or two: the sounder of 16-bit numbers, the record of the last left and right, and the number
// of the next tick in the call.
#![tactic(auto)]

ghost use Rattle.std.specs.Prelude.{◌≡◌, ◌*◌, ◌<◌, ◌≤◌};
ghost use Rattle.common.specs.Limits.{least_tempo, greatest_tempo};
ghost use Rattle.machine.specs.Lengths.{carried_at, length_at};
ghost use Rattle.floats.specs.Asked.{count_of};
ghost use Rattle.float_machine.specs.Machine.{FloatMachine, float_state};
ghost use Rattle.float_machine.specs.Sounding.{floats};

use floats::{Pair, Sides};
use machine::Machine;
use machine::sounder::{Integers, Sounder};
use reader::module::Module;
use ticks::Tick;

// How many numbers the longest tick's frames have as they are mixed: two for each of 3,750.
pub const MIXED: usize = 7500;

// A module's ticks as floats. They are mixed in a buffer, whose numbers are no part of the state.
#[derive(Clone, Copy)]
pub struct Floats<'a> {
    pub frames: Integers<'a>,
    pub sides: Sides,
    pub last: Pair,
    pub next: u32,
    pub mixed: [i16; MIXED],
}

impl<'a> Floats<'a> {
    // How many numbers a tick of this tempo takes: its frames times the sides.
    fn numbers_at(&self, tempo: u32) -> usize
        requires low { least_tempo ≤ tempo }
        requires remainder { (self.now.frames.machine.remainder < self.now.frames.machine.tempo) × (self.now.frames.machine.tempo ≤ greatest_tempo) }
        ensures { result ≡ count_of self.now.sides * length_at tempo (carried_at self.now.frames.machine.tempo self.now.frames.machine.remainder tempo) }
    {
        let begins = machine::carried_at(
            self.frames.machine.tempo,
            self.frames.machine.remainder,
            tempo,
        );
        self.sides.count() * machine::length_at(tempo, begins)
    }
}

impl<'a> Sounder for Floats<'a> {
    type Number = f32;

    ghost state_type = { FloatMachine };

    ghost state = { λ s. float_state s.frames.machine s.last s.next };

    ghost way = { λ s. floats (count_of s.sides) s.frames.module.now s.frames.keeps };

    ghost counted = { λ s. s.next };

    fn module(&self) -> &Module<'_> {
        self.frames.module
    }

    fn machine(&self) -> &Machine {
        &self.frames.machine
    }

    fn play_tick(&mut self, tick: Tick, out: &mut [f32]) -> Option<usize> {
        let size = self.numbers_at(tick.tempo);
        if out.len() < size {
            return None;
        }
        let taken = self.frames.play_tick(tick, &mut self.mixed).unwrap();
        self.last = floats::convert(&self.mixed[..taken], self.sides, self.next, self.last, out);
        self.next += 1;
        Some(size)
    }
}
