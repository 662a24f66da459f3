// Which cells waver, and what a cell does to a channel's waves. x and y are the parameter's two digits.
ghost use Rattle.std.specs.Prelude.{◌≡◌, eqb};
ghost use Rattle.motion.specs.Waves.{remembered};
ghost use Rattle.effects.specs.Notes.{x, y};
ghost use Rattle.effects.specs.Wavering.{vibrates, trembles, row_form, row_place, row_wave};
ghost use Rattle.effects.specs.Untouched.{touches_waves};

use crate::notes::is_note;
use motion::Wave;
use motion::narrow::remembered;
use motion::waves::SQUARE;
use reader::Cell;

// Effect 4, and 6, which runs it from memory.
#[tactic(auto, unfolding(crate::specs::Wavering::vibrates))]
pub fn vibrates(cell: Cell, t: u32) -> bool
    ensures { result ≡ vibrates cell t }
{
    0 < t && matches!(cell.effect, 0x04 | 0x06)
}

#[tactic(auto, unfolding(crate::specs::Wavering::trembles))]
pub fn trembles(cell: Cell, t: u32) -> bool
    ensures { result ≡ trembles cell t }
{
    0 < t && cell.effect == 0x07
}

// Whether a cell does something to a channel's waves in its row.
#[tactic(auto, unfolding(crate::specs::Untouched::touches_waves))]
pub fn touches_waves(cell: Cell) -> bool
    ensures { result ≡ touches_waves cell }
{
    is_note(cell) || matches!(cell.effect, 0x04 | 0x07 | 0xE4 | 0xE7)
}

// The wave's x and y after the row's work.
#[tactic(auto, using(crate::proofs::Cases::cases), unfolding(motion::specs::Waves::remembered))]
fn row_digits(effect: u8, cell: Cell, wave: Wave) -> (u8, u8)
    ensures x { result.0 ≡ remembered (eqb cell.effect effect) (x cell) wave.x }
    ensures y { result.1 ≡ remembered (eqb cell.effect effect) (y cell) wave.y }
{
    if cell.effect != effect {
        return (wave.x, wave.y);
    }
    (
        remembered(cell.param / 16, wave.x),
        remembered(cell.param % 16, wave.y),
    )
}

#[tactic(auto, using(crate::proofs::Cases::cases), unfolding(crate::specs::Wavering::row_place))]
fn row_place(cell: Cell, place: u8) -> u8
    ensures { result ≡ row_place cell place }
{
    if is_note(cell) { 0 } else { place }
}

#[tactic(auto, using(crate::proofs::Cases::cases), unfolding(crate::specs::Wavering::row_form))]
fn row_form(choosing: u8, cell: Cell, form: u8) -> u8
    ensures { result ≡ row_form choosing cell form }
{
    if cell.effect != choosing {
        return form;
    }
    let chosen = cell.param % 16 % 4;
    chosen.min(SQUARE)
}

// The wave of an effect after the row's work, with the effect that chooses its form.
#[tactic(auto, unfolding(crate::specs::Wavering::row_wave))]
pub fn row_wave(effect: u8, choosing: u8, cell: Cell, wave: Wave) -> Wave
    ensures { result ≡ row_wave effect choosing cell wave }
{
    let (x, y) = row_digits(effect, cell, wave);
    Wave {
        x,
        y,
        place: row_place(cell, wave.place),
        form: row_form(choosing, cell, wave.form),
    }
}
