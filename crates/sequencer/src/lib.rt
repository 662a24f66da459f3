// The sequencer: the song, what a tick does to it, and what the tick tells the voices. It never sees a voice: the sounding sample
// numbers are handed to it beside the song.
#![tactic(auto)]

ghost use Rattle.std.specs.Prelude.{◌≡◌, ℕ, ◌+◌, ◌*◌, ◌^◌, ◌<◌, ◌≤◌, slice_index};
ghost use Rattle.common.specs.Limits.{width};
ghost use Rattle.ticks.specs.Commands.{sounding_of};
ghost use Rattle.reader.specs.Layouts.{LegalLayout};
ghost use Rattle.sequencer.specs.LegalFacts.{LegalTime, LegalSong, LegalRun};
ghost use Rattle.common.specs.ByteLaws.{Bytes};
ghost use Rattle.reader.specs.Judge.{verdict};
ghost use Rattle.reader.specs.Modules.{as_module};
ghost use Rattle.effects.specs.Commands.{voiced};
ghost use Rattle.sequencer.specs.RowFacts.{BeginsAt};
ghost use Rattle.sequencer.specs.Voicing.{BeforeWork};
ghost use Rattle.reader.specs.File.{lent, song_length};
ghost use Rattle.sequencer.specs.Songs.{course_from, fresh_song, voiced_on, all_voiced, tick_with, tick_of};

use common::limits::WIDTH;
use effects::{Channel, Voiced};
use reader::Layout;
use reader::module::Module;
use row::Row;
use ticks::{Command, Tick};

pub mod legality;
mod next;
mod row;

// A position of the song and a row.
#[derive(Clone, Copy)]
pub struct Place {
    pub position: u32,
    pub row: u32,
}

// The loop row and count.
#[derive(Clone, Copy, Default)]
pub struct Loop {
    pub row: u32,
    pub count: u32,
}

// Where the song is, where it goes next, and its loop.
#[derive(Clone, Copy)]
pub struct Course {
    pub at: Place,
    pub next: Place,
    pub looping: Loop,
}

// The tick in the row, the row's delay, and how fast ticks come.
#[derive(Clone, Copy)]
pub struct Time {
    pub tick: u32,
    pub delay: u32,
    pub speed: u32,
    pub tempo: u32,
}

// What touches are held against.
#[derive(Clone, Copy, Default)]
pub struct Desk {
    pub clock: u32,
    pub page: u32,
}

// The song's state, with the channels' own numbers. The desk, which a tick passes by, does not stand beside the channels: they are copied alone then,
// 128 bytes in place, where 136 would be copied by a call.
#[derive(Clone, Copy)]
pub struct Song {
    pub desk: Desk,
    pub course: Course,
    pub time: Time,
    pub channels: [Channel; WIDTH],
}

// The loop on the way through a row, which the song keeps, and the row that a jump is asked to.
#[derive(Clone, Copy)]
pub struct Looping {
    pub kept: Loop,
    pub target: Option<u32>,
}

// B's position and D's row, where the row has them.
#[derive(Clone, Copy, Default)]
pub struct Move {
    pub position: Option<u32>,
    pub row: Option<u32>,
}

// What a row's cells do to the song.
#[derive(Clone, Copy)]
pub struct Flow {
    pub time: Time,
    pub looping: Looping,
    pub moving: Move,
}

// All channels after their work in a tick, and the commands to their voices.
#[derive(Clone, Copy)]
pub struct AllVoiced {
    pub channels: [Channel; WIDTH],
    pub commands: [Command; WIDTH],
}

// The song after a tick, and the tick.
#[derive(Clone, Copy)]
pub struct Worked {
    pub song: Song,
    pub tick: Tick,
}

impl Course {
    // From a position's first row on.
    pub fn from_position(position: u32) -> Course
        ensures { result ≡ course_from position }
    {
        let at = Place { position, row: 0 };
        Course {
            at,
            next: at,
            looping: Loop::default(),
        }
    }
}

// The song before its first tick.
impl Default for Song {
    ghost is_default = { λ song. song ≡ fresh_song };

    #[tactic(auto, unfolding(crate::specs::Songs::fresh_song, laws::specs::Ranges::each))]
    fn default() -> Song {
        let channels = [Channel::default(); WIDTH];
        Song {
            course: Course::from_position(0),
            time: Time {
                tick: 0,
                delay: 0,
                speed: 6,
                tempo: 125,
            },
            desk: Desk::default(),
            channels,
        }
    }
}

// The channels before a tick's work, with no command yet.
fn before_work(channels: [Channel; WIDTH]) -> AllVoiced
    ensures { BeforeWork channels result }
{
    let commands = [Command::default(); WIDTH];
    AllVoiced { channels, commands }
}

// All channels in a tick of the row that the song is at. Those past the count are as fresh, and stay so.
fn all_voiced(row: &Row, song: Song, sounding: [u8; WIDTH]) -> AllVoiced
    requires row { row.now.at ≡ song.course.at }
    requires legal { LegalSong (song_length (lent row.now.layout row.now.file.now)) row.now.layout song }
    ensures { result ≡ all_voiced (lent row.now.layout row.now.file.now) song sounding }
{
    let u = song.time.tick;
    let t = u % song.time.speed;
    let channels = song.channels;
    let mut all = before_work(channels);
    for i in 0..row.layout.channels {
        let voiced = effects::commands::voiced(
            row.file,
            row.cell(i),
            u,
            t,
            song.channels[i],
            sounding[i],
        );
        all.channels[i] = voiced.channel;
        all.commands[i] = voiced.command;
    }
    all
}

// A tick of a legal song in the row that it is at.
#[tactic(auto, unfolding(crate::specs::Songs::tick_of, crate::specs::Songs::tick_with))]
fn tick_in(row: &Row, song: Song, sounding: [u8; WIDTH]) -> Worked
    requires row { row.now.at ≡ song.course.at }
    requires accepted { (verdict (lent row.now.layout row.now.file.now)).number ≡ 0 }
    requires bytes { Bytes row.now.file.now }
    requires legal { LegalRun (lent row.now.layout row.now.file.now) song sounding }
    ensures { result ≡ tick_of (lent row.now.layout row.now.file.now) song sounding }
{
    let worked = row.work(song);
    let AllVoiced { channels, commands } = all_voiced(row, song, sounding);
    Worked {
        song: worked.advanced(channels),
        tick: Tick {
            tempo: worked.time.tempo,
            commands,
        },
    }
}

impl Song {
    // One tick of a legal song: the song after it, and what it tells the voices. `sounding` are the samples that the voices have, legal too.
    pub fn tick(self, m: &Module, sounding: [u8; WIDTH]) -> Worked
        requires { LegalRun (as_module m.now) self sounding }
        ensures { result ≡ tick_of (as_module m.now) self sounding }
    {
        tick_in(&Row::of(m, self.course.at), self, sounding)
    }
}

// Sample numbers that fit a byte, as bytes: the remainder leaves each as it is.
fn narrowed(samples: [u32; WIDTH]) -> [u8; WIDTH]
    requires { (i : ℕ) → i < width → slice_index samples i < 256 }
    ensures { result ≡ samples }
{
    samples.map(|sample| (sample % 256) as u8)
}

// The same of a module that is lent in parts.
pub fn tick(layout: Layout, file: &[u8], song: Song, sounding: [u32; WIDTH]) -> Worked
    requires layout { LegalLayout layout }
    requires accepted { (verdict (lent layout file.now)).number ≡ 0 }
    requires legal { LegalRun (lent layout file.now) song sounding }
    ensures { result ≡ tick_of (lent layout file.now) song sounding }
{
    let row = Row {
        file,
        layout,
        positions: reader::song::song_length(layout, file),
        at: song.course.at,
        cells: reader::song::row_at(layout, file, song.course.at.position, song.course.at.row),
    };
    tick_in(&row, song, narrowed(sounding))
}

// The samples that the voices have after these commands.
pub fn sounding_of(commands: [Command; WIDTH]) -> [u8; WIDTH]
    ensures { result ≡ sounding_of commands }
{
    commands.map(|command| command.sample)
}
