// A stream: its header's numbers, and the judgement of its bytes (refusals 21, 22, 28 and 23).
ghost use Rattle.std.specs.Prelude.{◌≡◌, ◌^◌, ◌≤◌, ◌<◌, true, length, IfOk, IfSome, IfNone};
ghost use Rattle.std.specs.Iterator.{YieldsFirst, item_count};
ghost use Rattle.common.specs.Answers.{judged};
ghost use Rattle.records.specs.Format.{records_place, version_of, known_version, keeps, shift, stream_channels, tick_count, first_record, at_first, decode_records, decode};
ghost use Rattle.decoder.specs.Answers.{answer_of};
ghost use Rattle.decoder.specs.Whole.{verdict_of, has_ticks, ticks_in, Whole};

use crate::reading::{Record, Scope};
use common::bytes::four;
use common::limits::{WIDTH, is_between};
use common::refusals::{Refusal, Rule};
use records::{COUNT_PLACE, FIRST_VERSION, LEAST_PLACE, VERSION, VERSION_PLACE};
use ticks::{Command, Tick};

// A stream's bytes, whose header is in.
#[derive(Clone, Copy)]
pub struct Header<'a> {
    pub bytes: &'a [u8],
    ghost in_full: { first_record bytes.now ≤ length bytes.now },
}

// The bytes of a whole stream for a scope.
#[derive(Clone, Copy)]
pub struct Stream<'a> {
    pub scope: Scope,
    pub header: Header<'a>,
    ghost whole: { Whole scope.last scope.channels header.bytes.now },
}

// The ticks of a stream that are left, from a record on. The registers are the commands of the tick before.
#[derive(Clone, Copy)]
pub struct Ticks<'a> {
    pub stream: Stream<'a>,
    pub registers: [Command; WIDTH],
    pub next: usize,
    pub left: usize,
    ghost few: { left < 2 ^ 32 },
    ghost all: { has_ticks (decode_records stream.scope.last stream.scope.channels stream.header.bytes.now left next registers) ≡ true },
}

// Whether a version is one that is read.
#[tactic(auto, unfolding(records::specs::Format::known_version))]
pub fn is_known(version: u32) -> bool
    ensures { result ≡ known_version version }
{
    is_between(u32::from(FIRST_VERSION), u32::from(VERSION), version)
}

impl<'a> Header<'a> {
    // The header of bytes that have room for one of any version.
    #[tactic(auto, unfolding(records::specs::Format::shift))]
    pub fn of(bytes: &'a [u8]) -> Header<'a>
        requires { records_place ≤ length bytes.now }
        ensures { result.bytes.now ≡ bytes.now }
    {
        Header { bytes }
    }

    pub fn version(&self) -> u8
        ensures { result ≡ version_of self.now.bytes.now }
    {
        self.bytes[VERSION_PLACE]
    }

    // By how many bytes its channel count moves what comes after it.
    pub fn shift(&self) -> usize
        ensures { (result ≡ shift (version_of self.now.bytes.now)) × (result ≤ 1) }
    {
        crate::shift(self.version())
    }

    // The place of the first record.
    pub fn first_record(&self) -> usize
        ensures { (result ≡ first_record self.now.bytes.now) × (result ≤ records_place) }
    {
        crate::first_record(self.bytes)
    }

    // How many ticks the stream says that it has.
    pub fn count(&self) -> usize
        ensures { (result ≡ tick_count self.now.bytes.now) × (result < 2 ^ 32) }
    {
        four(self.bytes, COUNT_PLACE + self.shift())
    }

    // How many channels the stream is for.
    pub fn channels(&self) -> usize
        ensures { result ≡ stream_channels self.now.bytes.now }
    {
        crate::channels_in(self.bytes)
    }

    // Whether the stream's ticks keep a remainder.
    pub fn keeps(&self) -> bool
        ensures { result ≡ keeps self.now.bytes.now }
    {
        crate::keeps(self.bytes)
    }

    // Refusal 23. It ends at the first bad record, and a good one has at least two bytes, whatever the count is.
    #[tactic(auto, using(crate::proofs::Records::checked_none, crate::proofs::Records::checked_more, crate::proofs::Records::checked_bad, crate::proofs::Records::checked_over, crate::proofs::Records::checked_all))]
    fn check_records(&self, scope: Scope) -> Result<(), Refusal>
        ensures { judged result ≡ answer_of (decode_records scope.last scope.channels self.now.bytes.now (tick_count self.now.bytes.now) (first_record self.now.bytes.now) at_first) }
    {
        let mut registers = records::at_first();
        let mut at = self.first_record();
        for _ in 0..self.count() {
            let Ok(record) = scope.read_record(self.bytes, at, &registers) else {
                return Err(Rule::StreamRecord.at(at));
            };
            registers = record.tick.commands;
            at = record.next;
        }
        if at != self.bytes.len() {
            return Err(Rule::StreamRecord.at(at));
        }
        Ok(())
    }
}

impl<'a> Stream<'a> {
    // The stream that the bytes are for a scope, or the first refusal of 21, 22, 28 and 23, with its place. All records are judged.
    #[tactic(auto, unfolding(records::specs::Format::decode_after, common::specs::Answers::refusing, crate::specs::Answers::answer_of))]
    pub fn read(scope: Scope, bytes: &'a [u8]) -> Result<Stream<'a>, Refusal>
        ensures verdict { verdict_of result ≡ answer_of (decode scope.last scope.channels bytes.now) }
        ensures its { IfOk result (λ s. (s.scope ≡ scope) × (s.header.bytes.now ≡ bytes.now)) }
    {
        if bytes.len() < LEAST_PLACE || bytes.len() != VERSION_PLACE + four(bytes, 0) {
            return Err(Rule::StreamLength.at(bytes.len()));
        }
        let version = bytes[VERSION_PLACE];
        if !is_known(u32::from(version)) {
            return Err(Rule::StreamVersion.at(VERSION_PLACE));
        }
        if bytes.len() < LEAST_PLACE + crate::shift(version) {
            return Err(Rule::StreamChannels.at(VERSION_PLACE));
        }
        let header = Header { bytes };
        if header.channels() != scope.channels {
            return Err(Rule::StreamChannels.at(VERSION_PLACE));
        }
        header.check_records(scope)?;
        Ok(Stream { scope, header })
    }
}

impl<'a> Stream<'a> {
    ghost use Rattle.decoder.specs.Left.{ticks_left};

    // The stream's ticks, one by one.
    #[tactic(auto, using(crate::proofs::Records::whole_reads))]
    pub fn ticks(&self) -> Ticks<'a>
        ensures all { ticks_left result ≡ ticks_in (decode self.now.scope.last self.now.scope.channels self.now.header.bytes.now) }
        ensures stream { result.stream ≡ self.now }
        ensures registers { result.registers ≡ at_first }
    {
        Ticks {
            stream: *self,
            registers: records::at_first(),
            next: self.header.first_record(),
            left: self.header.count(),
        }
    }
}

impl<'a> Ticks<'a> {
    ghost use Rattle.decoder.specs.Left.{ticks_left};

    // The next tick, as `next` gives it: its commands are the registers then.
    #[tactic(auto, using(crate::proofs::Records::next_there, crate::proofs::Records::next_first, crate::proofs::Records::next_others, crate::proofs::Records::next_none))]
    pub fn next_tick(&mut self) -> Option<Tick>
        ensures steps { YieldsFirst ticks_left self.old result self.new }
        ensures stream { self.new.stream ≡ self.old.stream }
        ensures registers { IfSome result (λ t. self.new.registers ≡ t.commands) }
        ensures stays { IfNone result (self.new ≡ self.old) }
    {
        let left = self.left.checked_sub(1)?;
        let stream = self.stream;
        let Record { tick, next } = stream
            .scope
            .read_record(stream.header.bytes, self.next, &self.registers)
            .unwrap();
        let commands = tick.commands;
        self.registers = commands;
        self.next = next;
        self.left = left;
        Some(tick)
    }
}

impl<'a> Iterator for Ticks<'a> {
    ghost use Rattle.decoder.specs.Left.{ticks_left};

    type Item = Tick;

    ghost next_gives = { YieldsFirst ticks_left };

    ghost remaining = { item_count ticks_left };

    fn next(&mut self) -> Option<Tick> {
        self.next_tick()
    }
}
