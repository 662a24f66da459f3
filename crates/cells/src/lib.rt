// A state as cells, plain numbers at the C boundary: any numbers become a state, and every state cells.
#![tactic(auto)]

ghost use Rattle.std.specs.Prelude.{◌≡◌, ◌+◌, ◌≤◌, ◌<◌, length};
ghost use Rattle.std.proofs.lemmas.List.Edits.{sets};
ghost use Rattle.laws.specs.Ranges.{each};
ghost use Rattle.common.specs.Limits.{width};
ghost use Rattle.cells.specs.Cells.{plain_cell_count, wave_cell_count, own_cell_count, voice_cell_count, channel_cell_count, cell_count, channel_place, song_cells, plain_cells, wave_cells, own_cells, voice_cells, channel_cells, state_cells, finetune_cell, byte_number, word_number, sample_unless, finetune_of, wave_of, channel_of, voice_of, song_of, state_of};

use common::limits::{LAST_BYTE, LAST_WORD, SAMPLE_NUMBERS, WIDTH};
use effects::Channel;
use motion::Wave;
use player::State;
use sequencer::{Course, Desk, Loop, Place, Song, Time};
use tuning::LAST_FINETUNE;
use voice::Voice;

// A song's cells with the remainder; a channel's plain numbers, a wave's, a channel's own with two waves, its voice's, and both.
const SONG_CELLS: usize = 13;

const PLAIN_CELLS: usize = 6;

const WAVE_CELLS: usize = 4;

const OWN_CELLS: usize = PLAIN_CELLS + WAVE_CELLS + WAVE_CELLS;

pub const VOICE_CELLS: usize = 6;

const CHANNEL_CELLS: usize = OWN_CELLS + VOICE_CELLS;

// A state's cells.
pub const CELLS: usize = SONG_CELLS + CHANNEL_CELLS * WIDTH;

// Where the remainder stands.
const REMAINDER: usize = 10;

// Finetunes from this on mean -8 to -1.
const LEAST_BELOW: u32 = 8;

// A finetune that no legal state has.
const NO_FINETUNE: u8 = LAST_FINETUNE + 1;

// -16 as a 32-bit number in two's complement.
const BELOW_ZERO: u32 = 4294967280;

// A sample number that no legal state has.
const NO_SAMPLE: u8 = SAMPLE_NUMBERS as u8;

// Writes a run of cells from a place on.
pub fn put(run: &[u32], at: usize, cells: &mut [u32])
    requires { at + length run.now ≤ length cells.old }
    ensures { cells.new ≡ sets cells.old at run.now }
{
    cells[at..at + run.len()].copy_from_slice(run);
}

fn put_song(song: Song, remainder: u32, cells: &mut [u32; CELLS])
    ensures { cells.new ≡ sets cells.old 0 (song_cells song remainder) }
{
    let run = [
        song.course.at.position,
        song.course.at.row,
        song.time.tick,
        song.time.delay,
        song.course.next.position,
        song.course.next.row,
        song.course.looping.row,
        song.course.looping.count,
        song.time.speed,
        song.time.tempo,
        remainder,
        song.desk.clock,
        song.desk.page,
    ];
    put(&run, 0, cells);
}

// The cell of a finetune: 0 to 7, or -8 to -1 for 8 to 15.
fn finetune_cell(finetune: u8) -> u32
    ensures { result ≡ finetune_cell finetune }
{
    let cell = u32::from(finetune);
    if cell < LEAST_BELOW {
        return cell;
    }
    if finetune <= LAST_FINETUNE {
        return BELOW_ZERO + cell;
    }
    cell
}

fn put_plain(channel: Channel, at: usize, cells: &mut [u32; CELLS])
    requires { at + plain_cell_count ≤ cell_count }
    ensures { cells.new ≡ sets cells.old at (plain_cells channel) }
{
    let run = [
        u32::from(channel.latched),
        finetune_cell(channel.finetune),
        u32::from(channel.volume),
        u32::from(channel.period),
        u32::from(channel.target),
        u32::from(channel.memory),
    ];
    put(&run, at, cells);
}

fn put_wave(wave: Wave, at: usize, cells: &mut [u32; CELLS])
    requires { at + wave_cell_count ≤ cell_count }
    ensures { cells.new ≡ sets cells.old at (wave_cells wave) }
{
    let run = [
        u32::from(wave.x),
        u32::from(wave.y),
        u32::from(wave.place),
        u32::from(wave.form),
    ];
    put(&run, at, cells);
}

fn put_own(channel: Channel, at: usize, cells: &mut [u32; CELLS])
    requires { at + own_cell_count ≤ cell_count }
    ensures { cells.new ≡ sets cells.old at (own_cells channel) }
{
    put_plain(channel, at, cells);
    put_wave(channel.vibrato, at + PLAIN_CELLS, cells);
    put_wave(channel.tremolo, at + PLAIN_CELLS + WAVE_CELLS, cells);
}

// Writes a voice's cells from a place on.
pub fn put_voice(voice: Voice, at: usize, cells: &mut [u32])
    requires { at + voice_cell_count ≤ length cells.old }
    ensures { cells.new ≡ sets cells.old at (voice_cells voice) }
{
    let run = [
        u32::from(voice.sample),
        u32::from(voice.period),
        u32::from(voice.volume),
        voice.index,
        u32::from(voice.fraction),
        u32::from(voice.stopped),
    ];
    put(&run, at, cells);
}

fn put_channel(channel: Channel, voice: Voice, at: usize, cells: &mut [u32; CELLS])
    requires { at + channel_cell_count ≤ cell_count }
    ensures { cells.new ≡ sets cells.old at (channel_cells channel voice) }
{
    put_own(channel, at, cells);
    put_voice(voice, at + OWN_CELLS, cells);
}

// The cells of a state. (No `From`: neither an array nor a state is a type of this crate.)
pub fn cells_of(state: State) -> [u32; CELLS]
    ensures { result ≡ state_cells state }
{
    let song = state.song;
    let channels = song.channels;
    let voices = state.voices;
    let mut cells = [0; CELLS];
    put_song(song, state.remainder, &mut cells);
    for i in 0..WIDTH {
        put_channel(
            channels[i],
            voices[i],
            SONG_CELLS + CHANNEL_CELLS * i,
            &mut cells,
        );
    }
    cells
}

// A number that is kept as a byte: a larger cell gives 255, which no legal sample, volume or wave has.
#[tactic(auto, unfolding(crate::specs::Cells::byte_number))]
fn byte_number(cell: u32) -> u8
    ensures { result ≡ byte_number cell }
{
    u8::try_from(cell).unwrap_or(u8::MAX)
}

// A number that is kept in two bytes: a larger cell gives 65,535, which no legal period is.
#[tactic(auto, unfolding(crate::specs::Cells::word_number))]
fn word_number(cell: u32) -> u16
    ensures { result ≡ word_number cell }
{
    u16::try_from(cell).unwrap_or(u16::MAX)
}

// A sample's cell, unless a number beside it cannot be kept.
fn sample_unless(lost: bool, cell: u32) -> u8
    ensures { result ≡ sample_unless lost cell }
{
    if lost {
        return NO_SAMPLE;
    }
    byte_number(cell)
}

// The wave whose cells begin at a place.
fn wave_of(cells: &[u32; CELLS], at: usize) -> Wave
    requires { at + wave_cell_count ≤ cell_count }
    ensures { result ≡ wave_of cells.now at }
{
    Wave {
        x: byte_number(cells[at]),
        y: byte_number(cells[at + 1]),
        place: byte_number(cells[at + 2]),
        form: byte_number(cells[at + 3]),
    }
}

// The finetune that a cell says: one outside -8 to 7 gives 16, which no legal state has.
fn finetune_of(cell: u32) -> u8
    ensures { result ≡ finetune_of cell }
{
    if cell < LEAST_BELOW {
        return cell as u8;
    }
    if cell < BELOW_ZERO + LEAST_BELOW {
        return NO_FINETUNE;
    }
    (cell - BELOW_ZERO) as u8
}

// The channel whose own cells begin at a place.
fn channel_of(cells: &[u32; CELLS], at: usize) -> Channel
    requires { at + own_cell_count ≤ cell_count }
    ensures { result ≡ channel_of cells.now at }
{
    Channel {
        latched: sample_unless(LAST_BYTE < cells[at + 5], cells[at]),
        finetune: finetune_of(cells[at + 1]),
        volume: byte_number(cells[at + 2]),
        memory: byte_number(cells[at + 5]),
        period: word_number(cells[at + 3]),
        target: word_number(cells[at + 4]),
        vibrato: wave_of(cells, at + PLAIN_CELLS),
        tremolo: wave_of(cells, at + PLAIN_CELLS + WAVE_CELLS),
    }
}

// The voice whose cells begin at a place.
pub fn voice_of(cells: &[u32], at: usize) -> Voice
    requires { at + voice_cell_count ≤ length cells.now }
    ensures { result ≡ voice_of cells.now at }
{
    Voice {
        sample: sample_unless((1 < cells[at + 5]) | (LAST_WORD < cells[at + 4]), cells[at]),
        volume: byte_number(cells[at + 2]),
        period: word_number(cells[at + 1]),
        index: cells[at + 3],
        fraction: word_number(cells[at + 4]),
        stopped: cells[at + 5] == 1,
    }
}

fn channels_of(cells: &[u32; CELLS]) -> [Channel; WIDTH]
    ensures { result ≡ each (λ i. channel_of cells.now (channel_place i)) width }
{
    let mut channels = [Channel::default(); WIDTH];
    for i in 0..WIDTH {
        channels[i] = channel_of(cells, SONG_CELLS + CHANNEL_CELLS * i);
    }
    channels
}

fn voices_of(cells: &[u32; CELLS]) -> [Voice; WIDTH]
    ensures { result ≡ each (λ i. voice_of cells.now (channel_place i + own_cell_count)) width }
{
    let mut voices = [Voice::default(); WIDTH];
    for i in 0..WIDTH {
        voices[i] = voice_of(cells, SONG_CELLS + CHANNEL_CELLS * i + OWN_CELLS);
    }
    voices
}

// The song with these channels.
fn song_of(cells: &[u32; CELLS], channels: [Channel; WIDTH]) -> Song
    ensures { result ≡ song_of cells.now channels }
{
    Song {
        course: Course {
            at: Place {
                position: cells[0],
                row: cells[1],
            },
            next: Place {
                position: cells[4],
                row: cells[5],
            },
            looping: Loop {
                row: cells[6],
                count: cells[7],
            },
        },
        time: Time {
            tick: cells[2],
            delay: cells[3],
            speed: cells[8],
            tempo: cells[9],
        },
        desk: Desk {
            clock: cells[11],
            page: cells[12],
        },
        channels: channels,
    }
}

// The state that cells say.
pub fn state_of(cells: &[u32; CELLS]) -> State
    ensures { result ≡ state_of cells.now }
{
    State {
        song: song_of(cells, channels_of(cells)),
        voices: voices_of(cells),
        remainder: cells[REMAINDER],
    }
}
