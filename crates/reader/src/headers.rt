// The headers, the song length and the table: refusals 2 to 6, and the number of patterns.
ghost use Rattle.std.specs.Prelude.{◌≡◌, ◌+◌, ◌*◌, ◌<◌, IfSome};
ghost use Rattle.common.specs.Bytes.{word_at};
ghost use Rattle.laws.specs.Ranges.{largest};
ghost use Rattle.reader.specs.File.{sample_count, entries, entry_of, header_at, patterns_of};
ghost use Rattle.reader.specs.Judge.{tagged, bad_length, bad_entry, bad_volume, bad_loop};
ghost use Rattle.reader.specs.Modules.{as_headed};
ghost use Rattle.reader.specs.Search.{found};

use crate::headed::Headed;
use crate::offsets::{
    ENTRIES, HEADER_BYTES, HEADERS_AT, LAST_PATTERN, LENGTH_AT, LOOP_LENGTH_AT, LOOP_START_AT,
    VOLUME_AT,
};
use crate::search::first;
use common::limits::LOUDEST;

const LOUDEST_BYTE: u8 = LOUDEST as u8;

const MOST_POSITIONS: u8 = ENTRIES as u8;

impl<'a> Headed<'a> {
    // Whether the layout has channels: a tag other than the four names none.
    #[tactic(auto, unfolding(crate::specs::Judge::tagged))]
    pub fn is_tagged(&self) -> bool
        ensures { result ≡ tagged (as_headed self.now) }
    {
        self.layout.channels != 0
    }

    #[tactic(auto, unfolding(crate::specs::Judge::bad_length))]
    pub fn is_bad_length(&self) -> bool
        ensures { result ≡ bad_length (as_headed self.now) }
    {
        let length = self.file[self.layout.song];
        (length == 0) | (length > MOST_POSITIONS)
    }

    fn entry(&self, i: usize) -> u8
        requires { i < entries }
        ensures { result ≡ entry_of (as_headed self.now) i }
    {
        self.file[self.layout.table + i]
    }

    // The first table entry above 63.
    pub fn bad_entry(&self) -> Option<usize>
        ensures found { result ≡ found (bad_entry (as_headed self.now)) entries }
        ensures below { IfSome result (λ i. i < entries) }
    {
        first(ENTRIES, |i| self.entry(i) > LAST_PATTERN)
    }

    #[tactic(auto, using(laws::specs::Search::largest_zero, laws::specs::Search::largest_step))]
    fn largest_entry(&self) -> u8
        ensures { result ≡ largest (entry_of (as_headed self.now)) entries }
    {
        let mut top = 0;
        for i in 0..ENTRIES {
            top = self.entry(i).max(top);
        }
        top
    }

    // One more than the largest of all entries, played or not.
    #[tactic(auto, unfolding(crate::specs::File::patterns_of))]
    pub fn pattern_count(&self) -> usize
        ensures { (result ≡ patterns_of (as_headed self.now)) × (result < 257) }
    {
        usize::from(self.largest_entry()) + 1
    }

    // The number of two bytes at a place of header k.
    pub fn header_word(&self, k: usize, place: usize) -> usize
        requires { (k < sample_count (as_headed self.now)) × (place < 29) }
        ensures { (result ≡ word_at self.now.file.now (header_at k + place)) × (result < 65536) }
    {
        common::bytes::word(self.file, HEADERS_AT + HEADER_BYTES * k + place)
    }

    // The first header whose volume is above 64.
    pub fn bad_volume(&self) -> Option<usize>
        ensures found { result ≡ found (bad_volume (as_headed self.now)) (sample_count (as_headed self.now)) }
        ensures below { IfSome result (λ k. k < sample_count (as_headed self.now)) }
    {
        first(self.layout.samples, |k| {
            self.file[HEADERS_AT + HEADER_BYTES * k + VOLUME_AT] > LOUDEST_BYTE
        })
    }

    #[tactic(auto, unfolding(crate::specs::Judge::bad_loop), using(laws::specs::Tests::tests))]
    fn is_bad_loop(&self, k: usize) -> bool
        requires { k < sample_count (as_headed self.now) }
        ensures { result ≡ bad_loop (as_headed self.now) k }
    {
        let again = self.header_word(k, LOOP_LENGTH_AT);
        again > 1 && self.header_word(k, LOOP_START_AT) + again > self.header_word(k, LENGTH_AT)
    }

    // The first header whose loop leaves its sample.
    pub fn bad_loop(&self) -> Option<usize>
        ensures found { result ≡ found (bad_loop (as_headed self.now)) (sample_count (as_headed self.now)) }
        ensures below { IfSome result (λ k. k < sample_count (as_headed self.now)) }
    {
        first(self.layout.samples, |k| self.is_bad_loop(k))
    }
}
