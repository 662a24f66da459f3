// Two cells at once, as the halves of a number of 32 bits: what the scan over all cells is made of.
ghost use Rattle.std.specs.Prelude.{◌≡◌, ◌+◌, ◌/◌, ◌%◌, ◌<◌, length};
ghost use Rattle.reader.specs.Halves.{has, first_two, low_period, bad_periods, mark_bits, upper_halves, seen_bad};

use crate::Layout;
use common::limits::{GREATEST_CELL_PERIOD, LEAST_CELL_PERIOD};

// The lowest bit of the high half.
pub const HIGH: u32 = 65536;

// The lowest bit of each.
const BOTH: u32 = HIGH + 1;

const LOW_TWO_BITS: u32 = 3 * BOTH;

const LOW_BYTE: u32 = 255 * BOTH;

// The bits that no good cell's first byte has, in a file of 15 samples and in one of 31.
const UPPER_OF_15: u32 = 0xFC * BOTH;

const UPPER_OF_31: u32 = 0xEC * BOTH;

// A period of ten bits stays below this.
const TOP: u32 = 1024;

const MARKS: u32 = TOP * BOTH;

// A period that reaches TOP with the number added is above the greatest; is not 0; is the least or above.
const ABOVE_GREATEST: u32 = (TOP - 1 - GREATEST_CELL_PERIOD) * BOTH;

const ABOVE_0: u32 = (TOP - 1) * BOTH;

const FROM_LEAST: u32 = (TOP - LEAST_CELL_PERIOD) * BOTH;

// A cell's first two bytes, the first one low: both are read at once.
pub fn first_two(file: &[u8], at: usize) -> u32
    requires { at + 1 < length file.now }
    ensures { (result ≡ first_two file.now at) × (result < 65536) }
{
    u32::from(file[at]) + u32::from(file[at + 1]) * 256
}

// The lower ten bits of each half's period.
#[tactic(auto, using(crate::proofs::Scan::period_high, crate::proofs::Scan::period_low, crate::proofs::Scan::period_high_lt, crate::proofs::Scan::period_low_lt))]
fn periods(both: u32) -> u32
    ensures result_value { (result / 65536 ≡ low_period (both / 65536)) × (result % 65536 ≡ low_period (both % 65536)) }
    ensures fits { (result / 65536 < 1024) × (result % 65536 < 1024) }
{
    (both & LOW_TWO_BITS) * 256 + (both / 256 & LOW_BYTE)
}

// The bit of MARKS is set in each half whose period is bad; other bits say nothing.
#[tactic(auto, using(crate::proofs::Scan::marks_are))]
pub fn marks(both: u32) -> u32
    ensures { has mark_bits result ≡ bad_periods both }
{
    let p = periods(both);
    (p + ABOVE_GREATEST) | ((p + ABOVE_0) ^ (p + FROM_LEAST))
}

// A file has 15 samples or 31.
#[tactic(auto, using(crate::proofs::Scan::upper_of_15, crate::proofs::Scan::upper_of_31))]
fn upper(layout: Layout) -> u32
    ensures { result ≡ upper_halves layout.samples }
{
    if layout.samples < 16 {
        return UPPER_OF_15;
    }
    UPPER_OF_31
}

// Whether one of the cells whose bytes and marks were joined is bad.
#[tactic(auto, using(crate::proofs::Scan::seen_is))]
pub fn is_seen_bad(layout: Layout, bytes: u32, marks: u32) -> bool
    ensures { result ≡ seen_bad layout.samples bytes marks }
{
    let seen = (bytes & upper(layout)) | (marks & MARKS);
    seen != 0
}
