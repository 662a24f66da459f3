// A board that takes bytes of a stream for a module: one by one, or a record that lies ahead whole at once.
ghost use Rattle.std.specs.Prelude.{◌≡◌, not, ◌^◌, ◌<◌, length};
ghost use Rattle.std.specs.Option.{is_some};
ghost use Rattle.common.specs.Answers.{outcome};
ghost use Rattle.reader.specs.Modules.{as_module};
ghost use Rattle.voice.specs.Modules.{samples_in};
ghost use Rattle.machine.specs.Turn.{turn_of};
ghost use Rattle.arrival.specs.Arrive.{taken, closed};
ghost use Rattle.arrival.specs.Feed.{fed};
ghost use Rattle.feed.specs.Feed.{reply_since, feed_of};
ghost use Rattle.feed.specs.Several.{several};
ghost use Rattle.feed.specs.Judged.{Judged};
ghost use Rattle.feed.specs.Takings.{Whole, Taken};
ghost use Rattle.feed.specs.Boards.{Held, answered, state_of, taking, next_of, size_of};

use crate::facts::{registers, scope};
use crate::playing::play;
use crate::{Board, Reply};
use common::refusals::{Refusal, Rule};
use reader::module::Module;
use ticks::Tick;

// How many numbers a part of a call's bytes took, and the place after it.
#[derive(Clone, Copy)]
pub(crate) struct Chunk {
    pub(crate) size: usize,
    pub(crate) next: usize,
}

// A legal board beside the module that it was judged for.
#[derive(Drop)]
pub(crate) struct Feeding<'a> {
    module: &'a Module<'a>,
    board: Board,
    ghost held: { Held module.now board },
}

impl<'a> Feeding<'a> {
    ghost use Rattle.std.specs.Prelude.{IfOk};
    ghost use Rattle.feed.specs.Boards.{verdict_of};

    // The board beside the module, where it is legal for it; otherwise refusal 14.
    pub(crate) fn begin(source: &'a Module<'a>, board: Board) -> Result<Feeding<'a>, Refusal>
        ensures judged { Judged (as_module source.now) board (verdict_of result) }
        ensures its { IfOk result (λ f. (f.module.now ≡ source.now) × (f.board ≡ board)) }
    {
        if !board.is_legal(source) {
            return Err(Rule::State.at(0));
        }
        Ok(Feeding {
            module: source,
            board,
        })
    }

    // Takes a byte, where its numbers fit into the front of out.
    #[inline(always)]
    fn take_byte(&mut self, byte: u8, out: &mut [i16]) -> Option<usize>
        ensures same { self.new.module.now ≡ self.old.module.now }
        ensures turned { answered result (state_of self.new.board) out.new ≡ turn_of (taking self.old.module.now) (state_of self.old.board) byte out.old }
    {
        let mut arrival = self.board.arrival;
        let version = arrival.version;
        let step = arrival.step(&scope(self.module), &registers(&self.board.machine), byte);
        let Some(tick) = step else {
            self.board.arrival = arrival;
            return Some(0);
        };
        let size = play(self.module, &mut self.board.machine, tick, version, out)?;
        self.board.arrival = arrival;
        Some(size)
    }

    // Takes a record that lies ahead whole, where its tick's numbers fit into the front of out.
    fn take_record(&mut self, tick: Tick, run: &[u8], out: &mut [i16]) -> Option<usize>
        requires { Whole self.old.module.now.layout.samples self.old.module.now.layout.channels self.old.board.arrival self.old.board.machine run.now tick }
        ensures same { self.new.module.now ≡ self.old.module.now }
        ensures turned { answered result (state_of self.new.board) out.new ≡ turn_of (several (taking self.old.module.now)) (state_of self.old.board) run.now out.old }
    {
        let arrival = self.board.arrival;
        let size = play(
            self.module,
            &mut self.board.machine,
            tick,
            arrival.version,
            out,
        )?;
        self.board.arrival = arrival.with_record(run);
        Some(size)
    }

    // Takes the byte that stands at a place of the bytes.
    #[inline(always)]
    fn take_one(&mut self, bytes: &[u8], at: usize, out: &mut [i16]) -> Option<Chunk>
        requires { at < length bytes.now }
        ensures same { self.new.module.now ≡ self.old.module.now }
        ensures taken { Taken (taking self.old.module.now) (state_of self.old.board) bytes.now at out.old (not (is_some result)) (next_of at result) (size_of result) (state_of self.new.board) out.new }
    {
        let size = self.take_byte(bytes[at], out)?;
        Some(Chunk { size, next: at + 1 })
    }

    // Takes the record that begins there, where it can be taken at once; otherwise the byte.
    fn take_chunk(&mut self, bytes: &[u8], at: usize, out: &mut [i16]) -> Option<Chunk>
        requires { at < length bytes.now }
        ensures same { self.new.module.now ≡ self.old.module.now }
        ensures taken { Taken (taking self.old.module.now) (state_of self.old.board) bytes.now at out.old (not (is_some result)) (next_of at result) (size_of result) (state_of self.new.board) out.new }
    {
        let scope = scope(self.module);
        let registers = registers(&self.board.machine);
        let Some(record) = self.board.arrival.ahead(&scope, &registers, bytes, at) else {
            return self.take_one(bytes, at, out);
        };
        let Some(size) = self.take_record(record.tick, &bytes[at..record.next], out) else {
            return self.take_one(bytes, at, out);
        };
        Some(Chunk {
            size,
            next: record.next,
        })
    }

    // Takes bytes until none is left, one shows a fault, or a tick does not fit.
    pub(crate) fn feed(&mut self, bytes: &[u8], out: &mut [i16]) -> Reply
        requires { taken self.old.board.arrival < 2 ^ 41 }
        ensures { outcome result out.new ≡ feed_of self.old.module.now.layout.samples self.old.module.now.layout.channels (samples_in (as_module self.old.module.now) self.old.module.now.extents) self.old.board.arrival self.old.board.machine bytes.now out.old }
    {
        let before = self.board.arrival;
        let mut i = 0;
        let mut at = 0;
        while i < bytes.len() && self.board.arrival.number == 0 {
            let Some(chunk) = self.take_chunk(bytes, i, &mut out[at..]) else {
                return self.board.reply_since(&before);
            };
            i = chunk.next;
            at += chunk.size;
        }
        self.board.reply_since(&before)
    }

    // The stream's end is told.
    pub(crate) fn close(&self) -> Reply
        requires { taken self.now.board.arrival < 2 ^ 40 }
        ensures { result ≡ reply_since self.now.board.arrival (fed (closed self.now.board.arrival) self.now.board.machine) }
    {
        let mut board = self.board;
        board.arrival.close();
        board.reply_since(&self.board.arrival)
    }
}
