// The periods of the notes, by finetune, for every number. A finetune is a header's number: 0 to 15, 8 to 15 meaning -8 to -1.
#![tactic(auto)]

ghost use Rattle.std.specs.Prelude.{◌≡◌, ◌-◌, ◌^◌, min};
ghost use Rattle.tuning.specs.Table.{greatest_of};
ghost use Rattle.tuning.specs.Tuned.{tuned, kept, semitones};

use crate::table::ends_of;

pub mod narrow;
mod table;

// The largest finetune, which means -1.
pub const LAST_FINETUNE: u8 = 15;

// A finetune, or semitones, in a byte. No row has the finetune 255, as none has one above it, and no row is 255 notes long.
fn byte(n: u32) -> u8
    ensures { result ≡ min n (2 ^ 8 - 1) }
{
    u8::try_from(n).unwrap_or(u8::MAX)
}

// A period in two bytes. One that is above them is above every entry, as their greatest is.
fn word(period: u32) -> u16
    ensures { result ≡ min period (2 ^ 16 - 1) }
{
    u16::try_from(period).unwrap_or(u16::MAX)
}

// The greatest period of a row.
#[tactic(auto, using(crate::proofs::Wide::greatest_wide))]
pub fn greatest_of(finetune: u32) -> u32
    ensures { result ≡ greatest_of finetune }
{
    u32::from(ends_of(byte(finetune)).first)
}

// The period of a note that a cell's period asks for.
#[tactic(auto, using(crate::proofs::Wide::tuned_wide), unfolding(crate::specs::Tuned::tuned))]
pub fn tuned(finetune: u32, period: u32) -> u32
    ensures { result ≡ tuned finetune period }
{
    if finetune == 0 {
        return period;
    }
    u32::from(narrow::tuned(byte(finetune), word(period)))
}

// A slide's result, kept in the row.
#[tactic(auto, using(crate::proofs::Wide::kept_wide))]
pub fn kept(finetune: u32, n: u32) -> u32
    ensures { result ≡ kept finetune n }
{
    u32::from(narrow::kept(byte(finetune), word(n)))
}

// A period so many semitones up in its finetune's row.
#[tactic(auto, using(crate::proofs::Wide::semitones_wide))]
pub fn semitones(finetune: u32, period: u32, by: u32) -> u32
    ensures { result ≡ semitones finetune period by }
{
    u32::from(narrow::semitones(byte(finetune), word(period), byte(by)))
}
