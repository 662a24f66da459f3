// A file played from fresh, tick by tick: a line a tick with position, row and tick before it, the tempo and each voice's numbers after
// it, and a checksum of its frames.
ghost use Rattle.std.specs.Prelude.{◌<◌, ◌≤◌, ◌≡◌, length};
ghost use Rattle.common.specs.Limits.{width};

use common::limits::{GREATEST_TEMPO, WIDTH};
use player::State;
use runs::FRAME_NUMBERS;
use sequencer::Song;
use std::io;
use voice::Voice;

// How many ticks of each file are played.
const TICKS: u32 = 48;

// The checksum's factor and modulus.
const FACTOR: u32 = 31;

const MODULUS: u32 = 65521;

// The numbers of the longest tick, at tempo 32.
const MOST_NUMBERS: usize = 7500;

fn room() -> [i16; MOST_NUMBERS]
    ensures { 7500 ≡ length result }
{
    [0i16; MOST_NUMBERS]
}

fn tell(rt: &impl Print, n: u32) -> io::Result<()> {
    print!(rt; " {n}")
}

fn tell_place(rt: &impl Print, song: Song) -> io::Result<()> {
    print!(rt; "{}", song.course.at.position)?;
    tell(rt, song.course.at.row)?;
    tell(rt, song.time.tick)
}

fn tell_voice(rt: &impl Print, v: Voice) -> io::Result<()> {
    tell(rt, u32::from(v.sample))?;
    tell(rt, u32::from(v.period))?;
    tell(rt, u32::from(v.volume))?;
    tell(rt, v.index)?;
    tell(rt, u32::from(v.fraction))?;
    tell(rt, u32::from(v.stopped))
}

// The first n voices.
fn tell_voices(rt: &impl Print, n: usize, voices: [Voice; WIDTH]) -> io::Result<()>
    requires { n ≤ width }
{
    for v in &voices[..n] {
        tell_voice(rt, *v)?;
    }
    Ok(())
}

// A number modulo 65,536.
fn bits(x: i16) -> u32
    ensures { result < 65536 }
{
    let y = x as i32 + 32768;
    (y as u32 + 32768) % 65536
}

// Of the first n numbers.
fn checksum(numbers: &[i16; MOST_NUMBERS], n: usize) -> u32
    requires { n ≤ 7500 }
{
    let mut h = 0;
    for x in &numbers[..n] {
        h = (h * FACTOR + bits(*x)) % MODULUS;
    }
    h
}

// How many numbers a tick has, by the tempo and the remainder before it.
fn tick_size(before: u32, remainder: u32, tempo: u32) -> usize
    ensures { result ≤ 7500 }
{
    if tempo == 0 {
        return 0;
    }
    if remainder > GREATEST_TEMPO {
        return 0;
    }
    let begins = machine::carried_at(before, remainder, tempo);
    let numbers = FRAME_NUMBERS * machine::length_at(tempo, begins);
    if numbers > MOST_NUMBERS {
        return 0;
    }
    numbers
}

// Plays a tick and tells of it. A file that is no module leaves the state.
fn play_tick(rt: &impl Print, file: &[u8], state: &mut State) -> io::Result<()> {
    let before = *state;
    let mut out = room();
    player::play(file, state, 1, &mut out).unwrap_or(0);
    let layout = reader::offsets::layout_of(file);
    let size = tick_size(
        before.song.time.tempo,
        before.remainder,
        state.song.time.tempo,
    );
    tell_place(rt, before.song)?;
    tell(rt, state.song.time.tempo)?;
    tell_voices(rt, layout.channels, state.voices)?;
    println!(rt; " {}", checksum(&out, size))
}

pub fn play_ticks(rt: &impl Print, file: &[u8]) -> io::Result<()> {
    let mut state = State::default();
    for _ in 0..TICKS {
        play_tick(rt, file, &mut state)?;
    }
    Ok(())
}
