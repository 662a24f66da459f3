// A pass through a module's ticks, one by one, from a fresh start.
ghost use Rattle.std.specs.Prelude.{◌≡◌, true};
ghost use Rattle.ticks.specs.Commands.{sounding_of};
ghost use Rattle.reader.specs.File.{song_length};
ghost use Rattle.reader.specs.Modules.{as_module};
ghost use Rattle.records.specs.Format.{at_first};
ghost use Rattle.sequencer.specs.Legal.{legal_song};
ghost use Rattle.sequencer.specs.LegalFacts.{LegalSounding};
ghost use Rattle.sequencer.specs.Songs.{fresh_song, tick_of};

use common::limits::WIDTH;
use reader::module::Module;
use sequencer::Song;
use ticks::{Command, Tick};

// The song, and the registers that its next tick comes upon: their samples sound.
#[derive(Drop)]
pub struct Pass<'a> {
    pub m: &'a Module<'a>,
    pub song: Song,
    pub registers: [Command; WIDTH],
    ghost legal: { legal_song (song_length (as_module m.now)) m.now.layout song ≡ true },
    ghost sounds: { LegalSounding (as_module m.now) (sounding_of registers) },
}

impl<'a> Pass<'a> {
    pub fn fresh(m: &'a Module<'a>) -> Pass<'a>
        ensures module { result.m.now ≡ m.now }
        ensures song { result.song ≡ fresh_song }
        ensures registers { result.registers ≡ at_first }
    {
        Pass {
            m,
            song: Song::default(),
            registers: records::at_first(),
        }
    }

    // The next tick, whose commands are the registers then.
    pub fn next_tick(&mut self) -> Tick
        ensures module { self.new.m ≡ self.old.m }
        ensures song { self.new.song ≡ (tick_of (as_module self.old.m.now) self.old.song (sounding_of self.old.registers)).song }
        ensures tick { result ≡ (tick_of (as_module self.old.m.now) self.old.song (sounding_of self.old.registers)).tick }
        ensures registers { self.new.registers ≡ result.commands }
    {
        let sounding = sequencer::sounding_of(self.registers);
        let worked = self.song.tick(self.m, sounding);
        let tick = worked.tick;
        let registers = tick.commands;
        self.song = worked.song;
        self.registers = registers;
        tick
    }
}
