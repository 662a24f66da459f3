// How a machine is led to a stream's tick: the ticks before it are played, and nobody hears them.
ghost use Rattle.std.specs.Prelude.{◌≡◌};
ghost use Rattle.reader.specs.Modules.{as_module};
ghost use Rattle.records.specs.Format.{decode};
ghost use Rattle.decoder.specs.Whole.{ticks_in};
ghost use Rattle.decoder.specs.Left.{ticks_left};
ghost use Rattle.board.specs.Leading.{Leading, Led};

use decoder::stream::{Stream, Ticks};
use machine::sounder::Integers;
use reader::module::Module;

// Leads a machine from the beginning of a stream, which is for the module, to a tick, counted from 0, or to its end; with the ticks from there on.
// Remainders are kept where `keeping` says so, whatever the stream's version.
pub fn lead<'m, 's>(
    m: &'m Module<'m>,
    stream: &Stream<'s>,
    keeping: bool,
    first: usize,
) -> (Integers<'m>, Ticks<'s>)
    requires last { stream.now.scope.last ≡ m.now.layout.samples }
    requires channels { stream.now.scope.channels ≡ m.now.layout.channels }
    ensures module { result.0.module.now ≡ m.now }
    ensures keeps { result.0.keeps ≡ keeping }
    ensures stream { result.1.stream ≡ stream.now }
    ensures led { Leading m.now keeping (ticks_in (decode m.now.layout.samples m.now.layout.channels stream.now.header.bytes.now)) result.0.machine (ticks_left result.1) first }
    ensures left { Led (as_module m.now) stream.now.header.bytes.now keeping first result.0.machine result.1.registers result.1.next result.1.left }
{
    let mut sounder = Integers {
        module: m,
        keeps: keeping,
        machine: machine::fresh(),
    };
    let mut ticks = stream.ticks();
    for _ in 0..first {
        let Some(tick) = ticks.next_tick() else {
            return (sounder, ticks);
        };
        sounder.pass_tick(&tick);
    }
    (sounder, ticks)
}
