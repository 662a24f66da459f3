// The records of the tick stream, written: a record's length and its bytes, and a stream's header.
// Arrays have room for WIDTH channels, of which a stream has so many; the others are never written.
#![tactic(auto)]

ghost use Rattle.std.specs.Prelude.{◌≡◌, ◌+◌, ◌*◌, ◌≤◌, length, take};
ghost use Rattle.std.proofs.lemmas.List.Edits.{sets};
ghost use Rattle.common.specs.Limits.{width};
ghost use Rattle.ticks.specs.Play.{over};
ghost use Rattle.records.specs.LegalLaws.{SpellableTick};
ghost use Rattle.records.specs.Format.{records_place, head_bytes, body_bytes, version, at_first, changed, mask, command_bytes, record_bytes, stream_header};
ghost use Rattle.records.specs.Marked.{marked_bytes};

use common::bytes::put_four;
use common::limits::WIDTH;
use ticks::{Command, Tick};

// The first version, the first with a channel count after the version, and the version that is written.
pub const FIRST_VERSION: u8 = 1;

pub const COUNTED_VERSION: u8 = 3;

pub const VERSION: u8 = 3;

// Older versions are for four channels.
pub const OLD_CHANNELS: usize = 4;

// The places of the version and of a channel count; of the tick count and the first record where there is no channel count.
pub const VERSION_PLACE: usize = 4;

pub const CHANNELS_PLACE: usize = 5;

pub const COUNT_PLACE: usize = 5;

pub const LEAST_PLACE: usize = 9;

// The first record's place in the version that is written.
pub const RECORDS_PLACE: usize = 10;

// The bytes of a record's mask and tempo, and the tempo's place.
pub const HEAD_BYTES: usize = 2;

pub const TEMPO_PLACE: usize = 1;

// The bytes of a set bit's numbers, and the start's place.
pub const BODY_BYTES: usize = 6;

pub const START_PLACE: usize = 4;

// A tick after its registers, the commands of the tick before, for so many channels: what a record says.
#[derive(Clone, Copy)]
pub struct Record<'a> {
    pub channels: usize,
    pub registers: &'a [Command; WIDTH],
    pub tick: &'a Tick,
    ghost few: { channels ≤ width },
    ghost long: { (length registers.now ≡ width) × (length tick.now.commands ≡ width) },
}

// The registers at first.
#[tactic(auto, unfolding(crate::specs::Format::at_first))]
pub fn at_first() -> [Command; WIDTH]
    ensures { result ≡ at_first }
{
    [Command::default(); WIDTH]
}

// Whether a channel's bit is set. A start sets it also where no number differs.
#[tactic(auto, unfolding(crate::specs::Format::changed))]
fn is_changed(r: Command, c: Command) -> bool
    ensures { result ≡ changed r c }
{
    c.sample != r.sample || c.volume != r.volume || c.period != r.period || c.start
}

// Writes a command's bytes at a place, one by one: `copy_from_slice` made a record take 2.5 times as long, over a million of them.
fn put_command(c: Command, at: usize, room: &mut [u8])
    requires { at + body_bytes ≤ length room.old }
    ensures { room.new ≡ sets room.old at (command_bytes c) }
{
    let period = c.period.to_be_bytes();
    room[at] = c.sample;
    room[at + 1] = c.volume;
    room[at + 2] = period[0];
    room[at + 3] = period[1];
    room[at + START_PLACE] = u8::from(c.start);
    room[at + 5] = c.offset;
}

// Writes the commands of a mask's bits, the lowest first, from a place on, and returns the place after them.
#[tactic(auto, using(crate::proofs::Channels::written_none, crate::proofs::Channels::written_room, crate::proofs::Channels::written_some, crate::proofs::Channels::written_skip, crate::proofs::Channels::written_next, crate::proofs::Channels::written_all))]
fn put_commands(mask: u8, commands: &[Command], at: usize, room: &mut [u8]) -> usize
    requires { at + length (marked_bytes mask commands.now) ≤ length room.old }
    ensures next { result ≡ at + length (marked_bytes mask commands.now) }
    ensures written { room.new ≡ sets room.old at (marked_bytes mask commands.now) }
{
    let mut next = at;
    let mut bits = mask;
    for command in commands {
        if bits % 2 == 1 {
            put_command(*command, next, room);
            next += BODY_BYTES;
        }
        bits /= 2;
    }
    next
}

impl Record<'_> {
    // The record's mask: bit 0 is channel 1.
    #[tactic(auto, using(crate::proofs::Channels::masked_none, crate::proofs::Channels::masked_small, crate::proofs::Channels::masked_all))]
    fn mask(&self) -> u8
        ensures { result ≡ mask (take self.now.channels self.now.registers.now) self.now.tick.now.commands }
    {
        let mut mask = 0;
        for k in (0..self.channels).rev() {
            mask = 2 * mask + u8::from(is_changed(self.registers[k], self.tick.commands[k]));
        }
        mask
    }

    // How many bytes the record has.
    #[tactic(auto, using(crate::proofs::Fronts::record_ones, crate::proofs::Fronts::record_few))]
    pub fn len(&self) -> usize
        ensures { (result ≡ length (record_bytes self.now.channels self.now.registers.now self.now.tick.now)) × (result ≤ head_bytes + body_bytes * width) }
    {
        HEAD_BYTES + BODY_BYTES * self.mask().count_ones() as usize
    }

    // Writes the record at the front of the room, and returns its length.
    pub fn put(&self, room: &mut [u8]) -> usize
        requires small { SpellableTick self.now.channels self.now.tick.now }
        requires fits { length (record_bytes self.now.channels self.now.registers.now self.now.tick.now) ≤ length room.old }
        ensures long { result ≡ length (record_bytes self.now.channels self.now.registers.now self.now.tick.now) }
        ensures written { room.new ≡ over (record_bytes self.now.channels self.now.registers.now self.now.tick.now) room.old }
    {
        let mask = self.mask();
        room[0] = mask;
        room[TEMPO_PLACE] = self.tick.tempo as u8;
        put_commands(mask, &self.tick.commands[..self.channels], HEAD_BYTES, room)
    }
}

// Writes a stream's header at the front of the room: how many bytes follow its first four, how many channels and how many ticks it has.
pub fn put_header(channels: usize, follow: usize, count: usize, room: &mut [u8])
    requires few { channels ≤ width }
    requires fits { records_place ≤ length room.old }
    ensures { room.new ≡ over (stream_header version channels follow count) room.old }
{
    put_four(follow, 0, room);
    room[VERSION_PLACE] = VERSION;
    room[CHANNELS_PLACE] = channels as u8;
    put_four(count, COUNT_PLACE + 1, room);
}
