// A tick on the board's machine, by the rule of a stream's version.
ghost use Rattle.std.specs.Prelude.{◌≡◌, ◌≤◌, ◌<◌};
ghost use Rattle.common.specs.Limits.{greatest_tempo};
ghost use Rattle.reader.specs.Modules.{as_module};
ghost use Rattle.voice.specs.Modules.{samples_in};
ghost use Rattle.voice.specs.LegalFacts.{Ready};
ghost use Rattle.machine.specs.Turn.{turn_of};
ghost use Rattle.feed.specs.Feed.{kept_under, left, under};
ghost use Rattle.feed.specs.Judged.{Begun};
ghost use Rattle.feed.specs.Boards.{answered};

use machine::Machine;
use reader::module::Module;
use ticks::Tick;

// Whether a version's ticks keep a remainder.
#[tactic(auto, unfolding(crate::specs::Feed::kept_under))]
fn kept_under(version: u32) -> bool
    ensures { result ≡ kept_under version }
{
    version != u32::from(records::FIRST_VERSION)
}

// The machine as a tick of this tempo finds it: without a remainder that it does not begin with.
fn begun(keeps: bool, machine: &Machine, tempo: u32) -> Machine
    requires rest { (machine.now.remainder ≡ 0 → ⊥) → machine.now.remainder < machine.now.tempo }
    requires tempo { tempo ≤ greatest_tempo }
    ensures { Begun keeps machine.now tempo result }
{
    if keeps && tempo == machine.tempo {
        return *machine;
    }
    Machine {
        remainder: 0,
        ..*machine
    }
}

// The machine after it, which by the old rule keeps tempo and remainder.
#[tactic(auto, unfolding(crate::specs::Feed::left))]
fn left(keeps: bool, before: &Machine, moved: Machine) -> Machine
    ensures { result ≡ left keeps before.now moved }
{
    if keeps {
        return moved;
    }
    let voices = moved.voices;
    Machine { voices, ..*before }
}

// A tick's frames into the front of out, whose rest stays, and how many numbers it took; nothing where they do not fit.
pub(crate) fn play(
    source: &Module,
    machine: &mut Machine,
    tick: Tick,
    version: u32,
    out: &mut [i16],
) -> Option<usize>
    requires ready { Ready (as_module source.now) source.now.extents machine.old.voices tick.commands }
    requires tempo { (0 < tick.tempo) × (tick.tempo ≤ greatest_tempo) }
    requires rest { (machine.old.remainder ≡ 0 → ⊥) → machine.old.remainder < machine.old.tempo }
    ensures { answered result machine.new out.new ≡ turn_of (under source.now.layout.channels (samples_in (as_module source.now) source.now.extents) version) machine.old tick out.old }
{
    let keeps = kept_under(version);
    let begins = begun(keeps, machine, tick.tempo);
    let turn = machine::play_tick(
        source.layout,
        source.file,
        source.extents,
        begins,
        tick,
        keeps,
        out,
    );
    if turn.full {
        return None;
    }
    *machine = left(keeps, machine, turn.machine);
    Some(turn.size)
}
