// Playing ticks one by one into a buffer.
ghost use Rattle.std.specs.Prelude.{◌≡◌, true, ◌<◌, ◌^◌, length};
ghost use Rattle.common.specs.Answers.{accepted, outcome};
ghost use Rattle.reader.specs.File.{lent};
ghost use Rattle.reader.specs.Judge.{verdict};
ghost use Rattle.reader.specs.Layouts.{LegalLayout};
ghost use Rattle.reader.specs.Modules.{as_module};
ghost use Rattle.sequencer.specs.LegalFacts.{LegalRun};
ghost use Rattle.sequencer.specs.Songs.{tick_of};
ghost use Rattle.player.specs.State.{reply};
ghost use Rattle.player.specs.Play.{soundings, machine_of, played_from};
ghost use Rattle.player.specs.State.{legal_state};
ghost use Rattle.player.specs.Running.{Over};
ghost use Rattle.player.specs.Turning.{Begins, state_of, voices_in};

use crate::{Reply, State};
use common::limits::WIDTH;
use machine::Machine;
use machine::sounder::{Integers, Sounder};
use reader::Layout;
use reader::module::Module;
use sequencer::{Song, Worked};
use voice::Voice;

// The sounding sample numbers.
fn soundings(voices: &[Voice; WIDTH]) -> [u8; WIDTH]
    ensures { result ≡ soundings voices.now }
{
    voices.map(|voice| voice.sample)
}

// The song's next tick, beside the sounding samples of a sounder's machine.
fn sounder_tick<S: Sounder>(sounder: &S, song: Song) -> Worked
    requires { LegalRun (as_module (S.way sounder.now).source) song (soundings (voices_in (S.way sounder.now) (S.state sounder.now))) }
    ensures { result ≡ tick_of (as_module (S.way sounder.now).source) song (soundings (voices_in (S.way sounder.now) (S.state sounder.now))) }
{
    song.tick(sounder.module(), soundings(&sounder.machine().voices))
}

// The same of an accepted file that is lent in parts, beside the machine's sounding samples.
pub fn next_tick(layout: Layout, file: &[u8], song: Song, machine: Machine) -> Worked
    requires layout { LegalLayout layout }
    requires accepted { (verdict (lent layout file.now)).number ≡ 0 }
    requires legal { LegalRun (lent layout file.now) song (soundings machine.voices) }
    ensures { result ≡ tick_of (lent layout file.now) song (soundings machine.voices) }
{
    let sounding = soundings(&machine.voices).map(|sample| sample.into());
    sequencer::tick(layout, file, song, sounding)
}

pub fn after_ticks(song: Song, machine: Machine, count: u32) -> Reply
    ensures { result ≡ reply (accepted count) (record { song = song; voices = machine.voices; remainder = machine.remainder }) }
{
    let voices = machine.voices;
    Reply {
        answer: common::accept(count as usize),
        state: State {
            song: song,
            voices: voices,
            remainder: machine.remainder,
        },
    }
}

// Plays at most n ticks of a song: the song after those that fit, and how many they are.
pub fn play_song<S: Sounder>(
    sounder: &mut S,
    start: Song,
    n: u32,
    out: &mut [S::Number],
) -> (Song, u32)
    requires begins { Begins (S.way sounder.old) (S.state sounder.old) start }
    requires uncounted { S.counted sounder.old ≡ 0 }
    requires narrow { length out.old < 2 ^ 62 }
    ensures over { Over (S.way sounder.old).plays (voices_in (S.way sounder.old)) (as_module (S.way sounder.old).source) (state_of start ((S.way sounder.old).held (S.state sounder.old))) (S.state sounder.old) n out.old result.0 (S.state sounder.new) out.new result.1 }
    ensures same { S.way sounder.new ≡ S.way sounder.old }
{
    let mut song = start;
    let mut at = 0;
    for i in 0..n {
        let worked = sounder_tick(sounder, song);
        match sounder.play_tick(worked.tick, &mut out[at..]) {
            None => {
                return (song, i);
            }
            Some(size) => {
                song = worked.song;
                at += size;
            }
        }
    }
    (song, n)
}

// The state's machine.
pub fn machine_of(state: State) -> Machine
    ensures { result ≡ machine_of state }
{
    let voices = state.voices;
    Machine {
        voices,
        tempo: state.song.time.tempo,
        remainder: state.remainder,
    }
}

// Plays at most n ticks of a module from a legal state.
pub fn play_ticks(m: &Module, state: State, n: u32, out: &mut [i16]) -> Reply
    requires { legal_state (as_module m.now) state ≡ true }
    ensures { outcome result out.new ≡ played_from (as_module m.now) state n out.old }
{
    let machine = machine_of(state);
    let mut sounder = Integers {
        module: m,
        keeps: true,
        machine,
    };
    let (song, count) = play_song(&mut sounder, state.song, n, out);
    after_ticks(song, sounder.machine, count)
}
