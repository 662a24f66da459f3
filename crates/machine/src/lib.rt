// The machine that player and board share, and one tick of it, into a buffer or passed by.
#![tactic(auto)]

ghost use Rattle.std.specs.Prelude.{◌≡◌, ◌+◌, ◌<◌, ◌≤◌, length};
ghost use Rattle.reader.specs.File.{lent};
ghost use Rattle.voice.specs.Modules.{samples_in};
ghost use Rattle.reader.specs.Layouts.{LegalLayout};
ghost use Rattle.voice.specs.LegalFacts.{Ready};
ghost use Rattle.common.specs.Limits.{greatest_tempo};
ghost use Rattle.machine.specs.Lengths.{tick_frames, carried_at, length_at, kept_at};
ghost use Rattle.machine.specs.Machine.{fresh_machine, rested_at, after, mechanism};
ghost use Rattle.machine.specs.Turn.{turn_of, turned};

use common::limits::{SAMPLE_NUMBERS, WIDTH};
use reader::{Extent, Layout};
use runs::FRAME_NUMBERS;
use ticks::Tick;
use voice::Voice;

pub mod sounder;

// A voice for each channel, the tempo of the tick before and the remainder that it left.
#[derive(Clone, Copy)]
pub struct Machine {
    pub voices: [Voice; WIDTH],
    pub tempo: u32,
    pub remainder: u32,
}

// A tick played: whether the buffer was too full for it, how many numbers it took, and the machine after it.
#[derive(Clone, Copy)]
pub struct Turn {
    pub full: bool,
    pub size: usize,
    pub machine: Machine,
}

// A tick's frames times its tempo.
const TICK_FRAMES: u32 = 120000;

// The tempo before the first tick.
const FRESH_TEMPO: u32 = 125;

// The machine before its first tick: every voice stopped, no remainder.
pub fn fresh() -> Machine
    ensures { result ≡ fresh_machine }
{
    let stopped = Voice::fresh();
    let voices = [stopped; WIDTH];
    Machine {
        voices: voices,
        tempo: FRESH_TEMPO,
        remainder: 0,
    }
}

// The remainder that a tick begins with.
#[tactic(auto, unfolding(crate::specs::Lengths::carried_at))]
pub fn carried_at(before: u32, remainder: u32, tempo: u32) -> u32
    requires { remainder ≤ greatest_tempo }
    ensures { (result ≡ carried_at before remainder tempo) × (result ≤ greatest_tempo) }
{
    if tempo == before {
        return remainder;
    }
    0
}

// How many frames a tick has.
pub fn length_at(tempo: u32, remainder: u32) -> usize
    requires { (0 < tempo) × (remainder ≤ greatest_tempo) }
    ensures { (result ≡ length_at tempo remainder) × (result ≤ tick_frames + greatest_tempo) }
{
    ((TICK_FRAMES + remainder) / tempo) as usize
}

// The remainder that it leaves: none by the old rule.
#[tactic(auto, unfolding(crate::specs::Lengths::kept_at))]
fn kept_at(keeps: bool, tempo: u32, remainder: u32) -> u32
    requires { (0 < tempo) × (remainder ≤ greatest_tempo) }
    ensures { result ≡ kept_at keeps tempo remainder }
{
    if keeps {
        return (TICK_FRAMES + remainder) % tempo;
    }
    0
}

// The machine after a tick: its voices, and what the tick's length leaves.
fn moved_on(voices: [Voice; WIDTH], tempo: u32, keeps: bool, remainder: u32) -> Machine
    requires { (0 < tempo) × (remainder ≤ greatest_tempo) }
    ensures { result ≡ rested_at voices keeps tempo remainder }
{
    Machine {
        voices: voices,
        tempo: tempo,
        remainder: kept_at(keeps, tempo, remainder),
    }
}

// A tick's frames into the front of out, whose rest stays; nothing where they do not fit.
pub fn play_tick(
    layout: Layout,
    file: &[u8],
    extents: [Extent; SAMPLE_NUMBERS],
    machine: Machine,
    tick: Tick,
    keeps: bool,
    out: &mut [i16],
) -> Turn
    requires layout { LegalLayout layout }
    requires ready { Ready (lent layout file.now) extents machine.voices tick.commands }
    requires tempo { 0 < tick.tempo }
    requires remainder { machine.remainder ≤ greatest_tempo }
    ensures turned { turned result out.new ≡ turn_of (mechanism keeps layout.channels (samples_in (lent layout file.now) extents)) machine tick out.old }
    ensures within { result.size ≤ length out.old }
{
    let begins = carried_at(machine.tempo, machine.remainder, tick.tempo);
    let frames = length_at(tick.tempo, begins);
    let size = FRAME_NUMBERS * frames;
    if out.len() < size {
        return Turn {
            full: true,
            size: 0,
            machine: machine,
        };
    }
    let voices = machine.voices;
    let commands = tick.commands;
    let moved = mixing::mix(layout, file, extents, voices, commands, frames, out);
    Turn {
        full: false,
        size: size,
        machine: moved_on(moved, tick.tempo, keeps, begins),
    }
}

// The machine after a tick that nobody hears. No byte of the file is read.
pub fn pass_tick(
    layout: Layout,
    file: &[u8],
    extents: [Extent; SAMPLE_NUMBERS],
    machine: Machine,
    tick: Tick,
    keeps: bool,
) -> Machine
    requires layout { LegalLayout layout }
    requires ready { Ready (lent layout file.now) extents machine.voices tick.commands }
    requires tempo { 0 < tick.tempo }
    requires remainder { machine.remainder ≤ greatest_tempo }
    ensures { result ≡ after keeps layout.channels (samples_in (lent layout file.now) extents) machine tick }
{
    let begins = carried_at(machine.tempo, machine.remainder, tick.tempo);
    let frames = length_at(tick.tempo, begins);
    let voices = machine.voices;
    let commands = tick.commands;
    let moved = mixing::pass(layout, file, extents, voices, commands, frames);
    moved_on(moved, tick.tempo, keeps, begins)
}
