// Mixing voices into frames: the voices are told their commands, and their frames are mixed piece by piece, each side by itself, or passed by.
#![tactic(auto)]

ghost use Rattle.std.specs.Prelude.{◌≡◌, [], ◌++◌, ℕ, ◌*◌, ◌<◌, ◌≤◌, length, get_or, drop};
ghost use Rattle.laws.specs.Ranges.{every, within};
ghost use Rattle.laws.specs.Each.{Filled};
ghost use Rattle.common.specs.Limits.{width, sample_numbers};
ghost use Rattle.common.specs.LimitFacts.{LegalPeriod};
ghost use Rattle.reader.specs.File.{lent};
ghost use Rattle.reader.specs.Modules.{as_module};
ghost use Rattle.reader.specs.Samples.{no_extent};
ghost use Rattle.reader.specs.Layouts.{LegalLayout};
ghost use Rattle.ticks.specs.Commands.{nothing};
ghost use Rattle.voice.specs.Modules.{sample_with, samples_in};
ghost use Rattle.voice.specs.Frames.{steps_of, scale_of, frame_numbers, blank, mixed, moved};
ghost use Rattle.voice.specs.LegalFacts.{LegalSound, LoopInside, Ready};
ghost use Rattle.mixing.specs.Sides.{voice_in, Pacing, mark_at, told_at, silent_at};

use crate::side::Mix;
use common::limits::{SAMPLE_NUMBERS, WIDTH};
use reader::module::Module;
use reader::{Extent, Layout};
use runs::FRAME_NUMBERS;
use ticks::Command;
use voice::Voice;
use voice_runs::{Pace, Runner};

mod pieces;
mod side;

// With up to so many channels a side is twice the sum, with more the plain sum.
const DOUBLED_TO: usize = 4;

// What a side's sum is multiplied by.
#[tactic(auto, unfolding(voice::specs::Frames::scale_of))]
fn scale(channels: usize) -> u32
    ensures { result ≡ scale_of channels }
{
    if channels <= DOUBLED_TO { 2 } else { 1 }
}

// The extents of the samples that the commands name.
fn named(
    channels: usize,
    extents: &[Extent; SAMPLE_NUMBERS],
    commands: &[Command; WIDTH],
) -> [Extent; WIDTH]
    requires channels_le_width { channels ≤ width }
    requires by_index { (i : ℕ) → i < channels → (get_or commands.now i nothing).sample < sample_numbers }
    ensures { Filled (mark_at extents.now commands.now) no_extent width result channels }
{
    let mut marks = [Extent::default(); WIDTH];
    for i in 0..channels {
        marks[i] = extents[usize::from(commands[i].sample)];
    }
    marks
}

// The voices told their commands.
fn tell(
    channels: usize,
    extents: &[Extent; WIDTH],
    commands: &[Command; WIDTH],
    voices: &mut [Voice; WIDTH],
)
    requires { channels ≤ width }
    ensures { voices.new ≡ within (told_at extents.now voices.old commands.now) blank channels width voices.old }
{
    for i in 0..channels {
        voices[i] = voices[i].told(commands[i], extents[i]);
    }
}

// Whether every voice is silent.
fn quiet(channels: usize, voices: &[Voice; WIDTH]) -> bool
    requires { channels ≤ width }
    ensures { result ≡ every (silent_at voices.now) channels }
{
    voices[..channels].iter().all(|voice| voice.silent())
}

// The voices' paces.
fn paces_of(channels: usize, voices: &[Voice; WIDTH]) -> [Pace; WIDTH]
    requires channels_le_width { channels ≤ width }
    requires by_index { (i : ℕ) → i < channels → LegalPeriod (voice_in voices.now i).period }
    ensures { Pacing voices.now result channels }
{
    let none = Pace {
        growth: 0,
        inverse: 0,
    };
    let mut paces = [none; WIDTH];
    for i in 0..channels {
        paces[i] = voice_runs::pace(voices[i].period);
    }
    paces
}

// A number of frames into the front of out, whose rest stays, and the voices after them.
pub fn mix(
    layout: Layout,
    file: &[u8],
    extents: [Extent; SAMPLE_NUMBERS],
    mut voices: [Voice; WIDTH],
    commands: [Command; WIDTH],
    frames: usize,
    out: &mut [i16],
) -> [Voice; WIDTH]
    requires layout { LegalLayout layout }
    requires ready { Ready (lent layout file.now) extents voices commands }
    requires fits { frame_numbers * frames ≤ length out.old }
    ensures moved { result ≡ moved layout.channels (samples_in (lent layout file.now) extents) voices commands frames }
    ensures mixed { out.new ≡ mixed layout.channels (samples_in (lent layout file.now) extents) voices commands frames ++ drop (frame_numbers * frames) out.old }
{
    let channels = layout.channels;
    let marks = named(channels, &extents, &commands);
    tell(channels, &marks, &commands, &mut voices);
    if quiet(channels, &voices) {
        out[..FRAME_NUMBERS * frames].fill(0);
        return voices;
    }
    let mix = Mix {
        file,
        extents: marks,
        paces: paces_of(channels, &voices),
        channels,
        times: scale(channels),
    };
    mix.pieces(&mut voices, frames, out);
    voices
}

// The same of a module, whose voices become those after the frames.
pub fn mix_into(
    m: &Module,
    voices: &mut [Voice; WIDTH],
    commands: &[Command; WIDTH],
    frames: usize,
    out: &mut [i16],
)
    requires ready { Ready (as_module m.now) m.now.extents voices.old commands.now }
    requires fits { frame_numbers * frames ≤ length out.old }
    ensures moved { voices.new ≡ moved m.now.layout.channels (samples_in (as_module m.now) m.now.extents) voices.old commands.now frames }
    ensures mixed { out.new ≡ mixed m.now.layout.channels (samples_in (as_module m.now) m.now.extents) voices.old commands.now frames ++ drop (frame_numbers * frames) out.old }
{
    let channels = m.layout.channels;
    let extents = named(channels, &m.extents, commands);
    tell(channels, &extents, commands, voices);
    if quiet(channels, voices) {
        out[..FRAME_NUMBERS * frames].fill(0);
        return;
    }
    let mix = Mix {
        file: m.file,
        extents,
        paces: paces_of(channels, voices),
        channels,
        times: scale(channels),
    };
    mix.pieces(voices, frames, out);
}

// A voice after the next frames, which nobody hears.
fn pass_voice(extent: Extent, voice: Voice, frames: usize) -> Voice
    requires looping { LoopInside (sample_with [] extent) }
    requires legal { LegalSound extent.end voice }
    ensures { result ≡ steps_of (sample_with [] extent) frames voice }
{
    let runner = Runner {
        voice,
        extent,
        pace: voice_runs::pace(voice.period),
    };
    runner.pass(frames)
}

// The voices after a number of frames that nobody hears. No byte of the file is read.
pub fn pass(
    layout: Layout,
    file: &[u8],
    extents: [Extent; SAMPLE_NUMBERS],
    mut voices: [Voice; WIDTH],
    commands: [Command; WIDTH],
    frames: usize,
) -> [Voice; WIDTH]
    requires layout { LegalLayout layout }
    requires ready { Ready (lent layout file.now) extents voices commands }
    ensures { result ≡ moved layout.channels (samples_in (lent layout file.now) extents) voices commands frames }
{
    for i in 0..layout.channels {
        let command = commands[i];
        let extent = extents[usize::from(command.sample)];
        let told = voices[i].told(command, extent);
        let after = pass_voice(extent, told, frames);
        voices[i] = after;
    }
    voices
}

// The same of a module, whose voices become those after the frames.
pub fn pass_by(m: &Module, voices: &mut [Voice; WIDTH], commands: &[Command; WIDTH], frames: usize)
    requires ready { Ready (as_module m.now) m.now.extents voices.old commands.now }
    ensures { voices.new ≡ moved m.now.layout.channels (samples_in (as_module m.now) m.now.extents) voices.old commands.now frames }
{
    for i in 0..m.layout.channels {
        let command = commands[i];
        let extent = m.extents[usize::from(command.sample)];
        let told = voices[i].told(command, extent);
        let runner = Runner {
            voice: told,
            extent,
            pace: voice_runs::pace(told.period),
        };
        voices[i] = runner.pass(frames);
    }
}
