// What the sequencer reads of a file: the song length, a cell, a sample's header volume and finetune.
ghost use Rattle.std.specs.Prelude.{◌≡◌, ◌+◌, ◌-◌, ◌*◌, ◌<◌, ◌^◌};
ghost use Rattle.reader.specs.File.{lent, song_length, header_finetune, header_volume};
ghost use Rattle.reader.specs.Judge.{verdict};
ghost use Rattle.common.specs.ByteLaws.{Bytes};
ghost use Rattle.reader.specs.Cells.{effect_of, cell_of, cell_from, row_offset};
ghost use Rattle.common.specs.Limits.{width};
ghost use Rattle.reader.specs.Layouts.{LegalLayout};

use crate::offsets::{CELL_BYTES, FINETUNE_AT, HEADER_BYTES, HEADERS_AT, VOLUME_AT};
use crate::{Cell, Layout};
use common::bytes::{byte, byte_or_0};
use common::limits::ROWS;

// The song length; and that the file's elements are bytes, which a caller's proof may need.
#[tactic(auto, using(crate::proofs::Extents::accepted_long))]
pub fn song_length(layout: Layout, file: &[u8]) -> u32
    requires legal_layout { LegalLayout layout }
    requires file_value { (verdict (lent layout file.now)).number ≡ 0 }
    ensures value { result ≡ song_length (lent layout file.now) }
    ensures bytes { Bytes file.now }
{
    let at = layout.song;
    u32::from(file[at])
}

#[tactic(auto, using(laws::specs::Tests::tests))]
fn effect_code(b2: u8, b3: u8) -> u8
    ensures { result ≡ effect_of b2 b3 }
{
    let low = b2 % 16;
    if low == 14 { 224 + b3 / 16 } else { low }
}

// The cell that four bytes spell.
fn cell_of(b0: u8, b1: u8, b2: u8, b3: u8) -> Cell
    ensures { result ≡ cell_of b0 b1 b2 b3 }
{
    Cell {
        sample: b0 / 16 * 16 + b2 / 16,
        period: u16::from(b0 % 16) * 256 + u16::from(b1),
        effect: effect_code(b2, b3),
        param: b3,
    }
}

// The cell at a place. One test serves its four bytes where all are in the file.
#[tactic(auto, unfolding(crate::specs::Cells::cell_from))]
fn cell_from(file: &[u8], at: usize) -> Cell
    requires { at + 3 < 2 ^ 63 }
    ensures { result ≡ cell_from file.now at }
{
    if at + 3 < file.len() {
        return cell_of(file[at], file[at + 1], file[at + 2], file[at + 3]);
    }
    cell_of(
        byte_or_0(file, at),
        byte_or_0(file, at + 1),
        byte_or_0(file, at + 2),
        byte_or_0(file, at + 3),
    )
}

// Where the cells of a position's row begin, each from 0.
pub fn row_at(layout: Layout, file: &[u8], position: u32, row: u32) -> usize
    requires { LegalLayout layout }
    ensures place { result ≡ row_offset (lent layout file.now) position row }
    ensures low { result < 2 ^ 62 }
{
    let entry = usize::from(byte_or_0(file, layout.table + position as usize));
    let row = ROWS * entry + row as usize;
    layout.patterns + CELL_BYTES * crate::offsets::cells_in(layout, row)
}

// The cell of a channel, from 0, in the row that begins at a place.
pub fn cell_in(file: &[u8], row: usize, channel: usize) -> Cell
    requires { (row < 2 ^ 62) × (channel < width) }
    ensures { result ≡ cell_from file.now (row + 4 * channel) }
{
    cell_from(file, row + CELL_BYTES * channel)
}

// The volume of the header of sample number k, from 1.
pub fn header_volume(file: &[u8], k: u32) -> u32
    requires { 0 < k }
    ensures { result ≡ header_volume file.now (k - 1) }
{
    let header = HEADERS_AT + HEADER_BYTES * (k - 1) as usize;
    byte(file, header + VOLUME_AT)
}

// The finetune of the header of sample number k, from 1: 0 to 15, 8 to 15 meaning -8 to -1.
pub fn header_finetune(file: &[u8], k: u32) -> u32
    requires { 0 < k }
    ensures { result ≡ header_finetune file.now (k - 1) }
{
    let header = HEADERS_AT + HEADER_BYTES * (k - 1) as usize;
    byte(file, header + FINETUNE_AT) % 16
}
