// The stream player: plays a stream's ticks with a module's samples. Module and stream are judged whole before a frame is written.
#![tactic(auto)]

ghost use Rattle.std.specs.Prelude.{◌≡◌, ◌<◌, ◌^◌, length};
ghost use Rattle.common.specs.Answers.{outcome, answered};
ghost use Rattle.ticks.specs.Playing.{Played};
ghost use Rattle.decoder.specs.Left.{ticks_left};
ghost use Rattle.board.specs.Board.{play_stream_from_of, play_stream_of};
ghost use Rattle.board.specs.Going.{Going};

use crate::lead::lead;
use common::refusals::Refusal;
use decoder::reading::Scope;
use decoder::stream::{Stream, Ticks};
use machine::sounder::Sounder;
use reader::module::Module;

pub mod lead;

// What a stream for a module has to be for.
pub fn scope(m: &Module) -> Scope
    ensures last { result.last ≡ m.now.layout.samples }
    ensures channels { result.channels ≡ m.now.layout.channels }
{
    Scope {
        last: m.layout.samples as u32,
        channels: m.layout.channels,
    }
}

// Plays the ticks that are left of a stream: how many of them fit.
pub fn play_ticks<S: Sounder>(sounder: &mut S, ticks: Ticks, out: &mut [S::Number]) -> usize
    requires going { Going (S.way sounder.old).source ((S.way sounder.old).held (S.state sounder.old)) (ticks_left ticks) }
    requires few { length (ticks_left ticks) < 2 ^ 32 }
    requires uncounted { S.counted sounder.old ≡ 0 }
    requires narrow { length out.old < 2 ^ 62 }
    ensures played { Played (S.way sounder.old).plays (S.state sounder.old) (ticks_left ticks.entry) out.old (S.state sounder.new) out.new result }
    ensures same { S.way sounder.new ≡ S.way sounder.old }
{
    let mut at = 0;
    let mut count = 0;
    for tick in ticks {
        let Some(size) = sounder.play_tick(tick, &mut out[at..]) else {
            return count;
        };
        at += size;
        count += 1;
    }
    count
}

// Plays a stream's ticks from one on, counted from 0: the largest number of whole ticks whose frames fit into out; the rest of out stays.
pub fn play_stream_from(
    stream: &[u8],
    file: &[u8],
    first: usize,
    out: &mut [i16],
) -> Result<usize, Refusal>
    ensures { outcome (answered result) out.new ≡ play_stream_from_of file.now stream.now first out.old }
{
    let module = Module::read(file)?;
    let stream = Stream::read(scope(&module), stream)?;
    let (mut sounder, ticks) = lead(&module, &stream, stream.header.keeps(), first);
    Ok(play_ticks(&mut sounder, ticks, out))
}

// The same from the stream's beginning.
pub fn play_stream(stream: &[u8], file: &[u8], out: &mut [i16]) -> Result<usize, Refusal>
    ensures { outcome (answered result) out.new ≡ play_stream_of file.now stream.now out.old }
{
    play_stream_from(stream, file, 0, out)
}
