// A record's reading: its tempo, and the command of each channel, beside its register, by its bit of the mask.
ghost use Rattle.std.specs.Prelude.{◌≡◌, ◌≤◌, ◌<◌, length, take};
ghost use Rattle.common.specs.Limits.{width};
ghost use Rattle.records.specs.Legal.{legal_beside};
ghost use Rattle.records.specs.Format.{held, period_at, start_at, spelled, read_body, read_channel, read_channels, read_record, unused_bits};
ghost use Rattle.decoder.specs.Results.{as_command, as_commands, as_record};

use common::bytes::{byte, byte_or_0, word};
use common::limits::{GREATEST_TEMPO, LEAST_TEMPO, LOUDEST, WIDTH, is_between, is_period};
use records::{BODY_BYTES, HEAD_BYTES, START_PLACE, TEMPO_PLACE};
use ticks::{Command, Tick};

// Why nothing was read: a byte is bad, or the bytes run out with none that is bad.
#[derive(Clone, Copy, PartialEq, Eq)]
pub enum Unread {
    Bad,
    Short,
}

// The tick of a record that was read, and the place after it.
#[derive(Clone, Copy)]
pub struct Record {
    pub tick: Tick,
    pub next: usize,
}

// What a stream is for: a module's last sample number, and its number of channels.
#[derive(Clone, Copy)]
pub struct Scope {
    pub last: u32,
    pub channels: usize,
    ghost few: { channels ≤ width },
}

// The period at a place, which shows by its second byte: 0 before that is in.
#[tactic(auto, unfolding(records::specs::Format::period_at))]
fn period_at(bytes: &[u8], at: usize) -> u16
    ensures { result ≡ period_at bytes.now at }
{
    if bytes.len().saturating_sub(at) < 2 {
        return 0;
    }
    word(bytes, at) as u16
}

// The start at a place: it may still come before its byte is in.
#[tactic(auto, unfolding(records::specs::Format::start_at))]
fn start_at(bytes: &[u8], at: usize) -> bool
    ensures { result ≡ start_at bytes.now at }
{
    bytes.get(at).is_none_or(|start| *start == 1)
}

// The command that six bytes spell, or those of them that are in.
#[tactic(auto, unfolding(records::specs::Format::spelled))]
fn spelled(bytes: &[u8], at: usize) -> Command
    requires { at < length bytes.now }
    ensures { result ≡ spelled bytes.now at }
{
    Command {
        sample: byte_or_0(bytes, at),
        volume: byte_or_0(bytes, at + 1),
        period: period_at(bytes, at + 2),
        start: start_at(bytes, at + START_PLACE),
        offset: byte_or_0(bytes, at + 5),
    }
}

// The command of a channel whose bit is not set.
#[tactic(auto, unfolding(records::specs::Format::held))]
fn held(register: Command) -> Command
    ensures { result ≡ held register }
{
    Command {
        start: false,
        offset: 0,
        ..register
    }
}

// The bits of a mask past those of the channels.
#[tactic(auto, using(crate::proofs::Readings::unused_bits_shift))]
fn unused_bits(channels: usize, mask: u32) -> u32
    requires { channels ≤ width }
    ensures { result ≡ unused_bits channels mask }
{
    mask >> channels
}

impl Scope {
    // Whether a command is legal beside the sample that sounded before.
    #[tactic(auto, unfolding(records::specs::Legal::legal_beside, laws::specs::Ranges::all, laws::specs::Ranges::all_from))]
    fn is_legal(&self, sounded: u8, c: Command) -> bool
        ensures { result ≡ legal_beside self.now.last sounded c }
    {
        u32::from(c.sample) <= self.last
            && u32::from(c.volume) <= LOUDEST
            && is_period(u32::from(c.period))
            && (c.start || c.sample == sounded)
            && (c.start || c.offset == 0)
    }

    // The command of a set bit, beside its channel's register, and the place after it.
    #[tactic(auto, using(crate::proofs::Readings::no_body), unfolding(records::specs::Format::read_body, records::specs::Format::good_body, crate::specs::Results::as_result))]
    fn read_body(
        &self,
        bytes: &[u8],
        at: usize,
        register: Command,
    ) -> Result<(Command, usize), Unread>
        ensures { result ≡ as_command (read_body self.now.last bytes.now at register) }
    {
        let left = bytes.len().saturating_sub(at);
        if left == 0 {
            return Err(Unread::Short);
        }
        let c = spelled(bytes, at);
        if byte_or_0(bytes, at + START_PLACE) > 1 || !self.is_legal(register.sample, c) {
            return Err(Unread::Bad);
        }
        if left < BODY_BYTES {
            return Err(Unread::Short);
        }
        Ok((c, at + BODY_BYTES))
    }

    // The command of a channel whose bit is the lowest of a mask, and the place after it.
    #[tactic(auto, unfolding(records::specs::Format::read_channel, crate::specs::Results::as_result))]
    fn read_channel(
        &self,
        bytes: &[u8],
        at: usize,
        register: Command,
        mask: u32,
    ) -> Result<(Command, usize), Unread>
        ensures { result ≡ as_command (read_channel self.now.last bytes.now at register mask) }
    {
        if mask % 2 == 0 {
            return Ok((held(register), at));
        }
        self.read_body(bytes, at, register)
    }

    // The commands of the channels in use by a mask, before the registers of the others, and the place after them. Beside the place they are aligned in the
    // result: from an odd byte on their copies would wait for two stores each.
    #[tactic(auto, using(crate::proofs::Readings::reading_none, crate::proofs::Readings::reading_more, crate::proofs::Readings::reading_unread, crate::proofs::Readings::reading_all))]
    fn read_channels(
        &self,
        bytes: &[u8],
        at: usize,
        registers: &[Command; WIDTH],
        mask: u32,
    ) -> Result<([Command; WIDTH], usize), Unread>
        ensures { result ≡ as_commands self.now.channels registers.now (read_channels self.now.last bytes.now at (take self.now.channels registers.now) mask) }
    {
        let mut commands = *registers;
        let mut next = at;
        let mut bits = mask;
        for k in 0..self.channels {
            let (command, after) = self.read_channel(bytes, next, registers[k], bits)?;
            commands[k] = command;
            next = after;
            bits /= 2;
        }
        Ok((commands, next))
    }

    // The record at a place of the bytes, after the registers.
    #[tactic(auto, unfolding(records::specs::Format::read_record, records::specs::Format::read_bodies, records::specs::Format::read_by, crate::specs::Results::as_result))]
    pub fn read_record(
        &self,
        bytes: &[u8],
        at: usize,
        registers: &[Command; WIDTH],
    ) -> Result<Record, Unread>
        ensures { result ≡ as_record (read_record self.now.last self.now.channels bytes.now at registers.now) }
    {
        let mask = byte(bytes, at);
        if unused_bits(self.channels, mask) != 0 {
            return Err(Unread::Bad);
        }
        if bytes.len().saturating_sub(at) < HEAD_BYTES {
            return Err(Unread::Short);
        }
        let tempo = byte(bytes, at + TEMPO_PLACE);
        if !is_between(LEAST_TEMPO, GREATEST_TEMPO, tempo) {
            return Err(Unread::Bad);
        }
        let (commands, next) = self.read_channels(bytes, at + HEAD_BYTES, registers, mask)?;
        Ok(Record {
            tick: Tick { tempo, commands },
            next,
        })
    }
}
