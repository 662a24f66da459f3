// The reader: judges any bytes as a module (refusals 1 to 9), and reads the cells and samples of an accepted one.
#![tactic(auto)]

ghost use Rattle.std.specs.Prelude.{◌≡◌};
ghost use Rattle.reader.specs.File.{lent};
ghost use Rattle.reader.specs.Judge.{verdict, judge_of};
ghost use Rattle.reader.specs.Layouts.{LegalLayout};

use common::Answer;

mod cells;
mod halves;
mod headed;
mod headers;
pub mod module;
pub mod narrow;
pub mod offsets;
pub mod samples;
mod search;
pub mod song;
pub mod verdict;

// How many samples and channels a file has, and where its song length, table, tag and patterns lie.
#[derive(Clone, Copy)]
pub struct Layout {
    pub samples: usize,
    pub channels: usize,
    pub song: usize,
    pub table: usize,
    pub tag: usize,
    pub patterns: usize,
}

// A cell of a pattern. The effects E0 to EF have the numbers 224 to 239.
#[derive(Clone, Copy)]
pub struct Cell {
    pub sample: u8,
    pub period: u16,
    pub effect: u8,
    pub param: u8,
}

// Where a sample's bytes lie in the file; and, counted from its first byte, its end and its loop's first byte.
// `looped` stands beside `first`, as in the definitions and theorems that name both: `extent_of`, `Inside`, `sample_with`.
#[derive(Clone, Copy, Default)]
pub struct Extent {
    pub from: usize,
    pub to: usize,
    pub end: u32,
    pub looped: bool,
    pub first: u32,
}

// Whether the bytes are a module of this layout: the first refusal of the table, with its place.
pub fn judge_by(layout: Layout, file: &[u8]) -> Answer
    requires { LegalLayout layout }
    ensures { result ≡ verdict (lent layout file.now) }
{
    verdict::judge_by(layout, file).into()
}

// Whether the bytes are a module: the first refusal of the table, with its place.
pub fn judge(file: &[u8]) -> Answer
    ensures { result ≡ judge_of file.now }
{
    verdict::judge(file).into()
}
