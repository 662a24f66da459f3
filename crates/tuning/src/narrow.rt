// The same on numbers as a channel holds them: a finetune in a byte, a period in two.
ghost use Rattle.std.specs.Prelude.{◌≡◌, ◌≤◌};
ghost use Rattle.tuning.specs.Table.{last_note, entry};
ghost use Rattle.tuning.specs.Tuned.{place_of, tuned, kept, semitones};

use crate::table::{LAST_NOTE, ends_of, row_of};

// The entry of a row at a place.
#[tactic(auto, using(crate::proofs::Places::entry_in))]
fn entry(finetune: u8, note: usize) -> u16
    requires { note ≤ last_note }
    ensures { result ≡ entry finetune note }
{
    row_of(finetune)[note]
}

// Where a finetune's row is first at or below a period, or its last place.
fn place_of(finetune: u8, period: u16) -> usize
    ensures { (result ≡ place_of finetune period) × (result ≤ last_note) }
{
    let row = row_of(finetune);
    row[..LAST_NOTE]
        .iter()
        .position(|entry| *entry <= period)
        .unwrap_or(LAST_NOTE)
}

// The period of a note that a cell's period asks for.
#[tactic(auto, using(crate::proofs::Places::tuned_by), unfolding(crate::specs::Tuned::tuned))]
pub fn tuned(finetune: u8, period: u16) -> u16
    ensures { result ≡ tuned finetune period }
{
    if finetune == 0 {
        return period;
    }
    entry(finetune, place_of(0, period))
}

// A slide's result, kept in the row.
#[tactic(auto, using(crate::proofs::Places::in_order, crate::proofs::Places::kept_by))]
pub fn kept(finetune: u8, n: u16) -> u16
    ensures { result ≡ kept finetune n }
{
    let ends = ends_of(finetune);
    n.clamp(ends.last, ends.first)
}

// A period so many semitones up in its finetune's row.
#[tactic(auto, using(crate::proofs::Places::semitones_by))]
pub fn semitones(finetune: u8, period: u16, by: u8) -> u16
    ensures { result ≡ semitones finetune period by }
{
    let note = place_of(finetune, period) + usize::from(by);
    entry(finetune, note.min(LAST_NOTE))
}
