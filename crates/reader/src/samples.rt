// Where the samples lie.
ghost use Rattle.std.specs.Prelude.{◌≡◌, ◌+◌, ◌*◌, ◌≤◌, ◌<◌, length};
ghost use Rattle.laws.specs.Ranges.{total};
ghost use Rattle.reader.specs.Layouts.{LegalLayout};
ghost use Rattle.reader.specs.File.{lent, sample_count, sample_words, sample_behind, sample_place};
ghost use Rattle.reader.specs.Judge.{verdict};
ghost use Rattle.reader.specs.Modules.{as_headed};
ghost use Rattle.reader.specs.Samples.{extents_of};
ghost use Rattle.reader.specs.Extents.{Placed};

use crate::headed::Headed;
use crate::offsets::{CELL_BYTES, LENGTH_AT, LOOP_LENGTH_AT, LOOP_START_AT, cells_in};
use crate::{Extent, Layout};
use common::limits::{ROWS, SAMPLE_NUMBERS};

impl<'a> Headed<'a> {
    // The words of the first k samples.
    #[tactic(auto, using(laws::specs::Search::searches))]
    fn words(&self, k: usize) -> usize
        requires { k ≤ sample_count (as_headed self.now) }
        ensures { (result ≡ total (sample_words self.now.file.now) k) × (result ≤ 65535 * k) }
    {
        let mut sum = 0;
        for i in 0..k {
            sum += self.header_word(i, LENGTH_AT);
        }
        sum
    }

    // Where sample k, from 0, begins behind n patterns; at the number of samples, the end of the last.
    pub fn sample_behind(&self, n: usize, k: usize) -> usize
        requires { (n < 257) × (k ≤ sample_count (as_headed self.now)) }
        ensures { (result ≡ sample_behind (as_headed self.now) n k) × (result ≤ 530000 + 131070 * k) }
    {
        self.layout.patterns + CELL_BYTES * cells_in(self.layout, ROWS * n) + 2 * self.words(k)
    }

    // Sample k, from 0, which begins at `from`.
    #[tactic(auto, using(crate::proofs::Extents::looped_at, crate::proofs::Extents::straight_at))]
    fn extent(&self, from: usize, k: usize) -> Extent
        requires low { k < sample_count (as_headed self.now) }
        requires place { (from ≡ sample_place (as_headed self.now) k) × (from < 9000000) }
        ensures { Placed (as_headed self.now) k result }
    {
        let size = 2 * self.header_word(k, LENGTH_AT);
        let start = self.header_word(k, LOOP_START_AT);
        let again = self.header_word(k, LOOP_LENGTH_AT);
        if again > 1 {
            return Extent {
                from,
                to: from + size,
                end: (2 * (start + again)) as u32,
                looped: true,
                first: (2 * start) as u32,
            };
        }
        Extent {
            from,
            to: from + size,
            end: size as u32,
            looped: false,
            first: 0,
        }
    }

    // The extents by sample number; number 0 is no sample.
    pub fn extents(&self) -> [Extent; SAMPLE_NUMBERS]
        ensures { result ≡ extents_of (as_headed self.now) }
    {
        let mut table = [Extent::default(); SAMPLE_NUMBERS];
        let mut from = self.sample_behind(self.pattern_count(), 0);
        for k in 0..self.layout.samples {
            let x = self.extent(from, k);
            table[k + 1] = x;
            from = x.to;
        }
        table
    }
}

// Where sample k, from 0, begins behind n patterns of a file with room for its headers; at the number of samples, the end of the last.
pub fn sample_behind(layout: Layout, file: &[u8], n: usize, k: usize) -> usize
    requires legal_layout { LegalLayout layout }
    requires patterns_in_bounds { (layout.patterns ≤ length file.now) × ((n < 257) × (k ≤ layout.samples)) }
    ensures { (result ≡ sample_behind (lent layout file.now) n k) × (result ≤ 530000 + 131070 * k) }
{
    Headed { layout, file }.sample_behind(n, k)
}

// The extents by sample number; number 0 is no sample.
#[tactic(auto, using(crate::proofs::Extents::accepted_long))]
pub fn extents(layout: Layout, file: &[u8]) -> [Extent; SAMPLE_NUMBERS]
    requires legal_layout { LegalLayout layout }
    requires file_value { (verdict (lent layout file.now)).number ≡ 0 }
    ensures { result ≡ extents_of (lent layout file.now) }
{
    Headed { layout, file }.extents()
}
