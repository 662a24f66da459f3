// The file's layout: sample headers of 30 bytes, the song length, the table, the tag, the patterns, the samples.
ghost use Rattle.std.specs.Prelude.{◌≡◌, ◌*◌, ◌≤◌, ◌<◌};
ghost use Rattle.common.specs.Limits.{width};
ghost use Rattle.common.specs.Bytes.{four_at};
ghost use Rattle.reader.specs.File.{channels_of, tag_place, layout_of, cells_in};
ghost use Rattle.reader.specs.Layouts.{LegalLayout};

use crate::Layout;
use common::bytes::byte;

pub const HEADERS_AT: usize = 20;

pub const HEADER_BYTES: usize = 30;

// Places in a header: its sample's length, finetune, volume, repeat start and repeat length.
pub const LENGTH_AT: usize = 22;

pub const FINETUNE_AT: usize = 24;

pub const VOLUME_AT: usize = 25;

pub const LOOP_START_AT: usize = 26;

pub const LOOP_LENGTH_AT: usize = 28;

pub const ENTRIES: usize = 128;

// A table entry's largest number.
pub const LAST_PATTERN: u8 = 63;

pub const CELL_BYTES: usize = 4;

// The tags of 31-sample files, as the number that their four bytes spell, and their place.
const TAG_MK: u32 = 0x4D2E4B2E;

const TAG_4CHN: u32 = 0x3443484E;

const TAG_6CHN: u32 = 0x3643484E;

const TAG_8CHN: u32 = 0x3843484E;

const TAG_PLACE: usize = 1080;

// The number that the tag's four bytes spell, each 0 past the end.
#[tactic(auto, unfolding(common::specs::Bytes::four_at))]
fn tag_of(file: &[u8]) -> u32
    ensures { result ≡ four_at file.now tag_place }
{
    let a = byte(file, TAG_PLACE);
    let b = byte(file, TAG_PLACE + 1);
    let c = byte(file, TAG_PLACE + 2);
    let d = byte(file, TAG_PLACE + 3);
    ((a * 256 + b) * 256 + c) * 256 + d
}

// How many channels a tag names, 0 for any other than the four.
#[tactic(auto, unfolding(crate::specs::File::channels_of), using(laws::specs::Tests::tests))]
fn channels_of(tag: u32) -> usize
    ensures { result ≡ channels_of tag }
{
    match tag {
        TAG_MK | TAG_4CHN => 4,
        TAG_6CHN => 6,
        TAG_8CHN => 8,
        _ => 0,
    }
}

// The layout of a file of 31 samples, with as many channels as its tag names.
#[tactic(auto, using(crate::proofs::Laws::tagged_legal))]
pub fn layout_of(file: &[u8]) -> Layout
    ensures value { result ≡ layout_of file.now }
    ensures legal_layout { LegalLayout result }
{
    let channels = channels_of(tag_of(file));
    Layout {
        samples: 31,
        channels,
        song: 950,
        table: 952,
        tag: TAG_PLACE,
        patterns: 1084,
    }
}

// How many cells so many rows have.
#[tactic(auto, using(crate::proofs::Laws::few_cells))]
pub fn cells_in(layout: Layout, n: usize) -> usize
    requires legal_layout { LegalLayout layout }
    requires n_bound { n < 5000000000 }
    ensures { (result ≡ cells_in layout n) × (result ≤ width * n) }
{
    layout.channels * n
}
