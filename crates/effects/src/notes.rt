// Whether a cell has a note, or a target, and whether it slides towards one. Effects are numbers here and in the other files, in hexadecimal, by
// which the definitions and the format's users name them.
ghost use Rattle.std.specs.Prelude.{◌≡◌};
ghost use Rattle.effects.specs.Notes.{is_portamento, is_note, is_target};

use reader::Cell;

// Effect 3, and 5, which runs it from memory.
#[tactic(auto, unfolding(crate::specs::Notes::is_portamento))]
pub fn is_portamento(cell: Cell) -> bool
    ensures { result ≡ is_portamento cell }
{
    matches!(cell.effect, 0x03 | 0x05)
}

// A period without effects 3 and 5.
#[tactic(auto, unfolding(crate::specs::Notes::is_note))]
pub fn is_note(cell: Cell) -> bool
    ensures { result ≡ is_note cell }
{
    cell.period != 0 && !matches!(cell.effect, 0x03 | 0x05)
}

// A period with one of these.
#[tactic(auto, unfolding(crate::specs::Notes::is_target))]
pub fn is_target(cell: Cell) -> bool
    ensures { result ≡ is_target cell }
{
    cell.period != 0 && is_portamento(cell)
}
