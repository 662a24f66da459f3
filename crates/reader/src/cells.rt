// The cells of all patterns: refusals 8 and 9.
ghost use Rattle.std.specs.Prelude.{◌≡◌, ◌+◌, ◌*◌, ◌≤◌, ◌<◌, IfSome, length};
ghost use Rattle.common.specs.Limits.{bad_period};
ghost use Rattle.laws.specs.Ranges.{some};
ghost use Rattle.reader.specs.Judge.{bad_at, bad_cell, bad_number_at};
ghost use Rattle.reader.specs.Modules.{as_headed};
ghost use Rattle.reader.specs.Search.{found};

use crate::halves;
use crate::headed::Headed;
use crate::offsets::CELL_BYTES;
use crate::search::first;
use common::limits::{GREATEST_CELL_PERIOD, LEAST_CELL_PERIOD};

fn is_bad_period(period: u32) -> bool
    ensures { result ≡ bad_period period }
{
    (period != 0) & ((period < LEAST_CELL_PERIOD) | (period > GREATEST_CELL_PERIOD))
}

impl<'a> Headed<'a> {
    // Whether the cell's sample number is above the last. The first byte alone decides that.
    pub fn is_bad_number(&self, at: usize) -> bool
        requires { at + 3 < length self.now.file.now }
        ensures { result ≡ bad_number_at (as_headed self.now) at }
    {
        usize::from(self.file[at]) > self.layout.samples
    }

    #[tactic(auto, unfolding(crate::specs::Judge::bad_at, crate::specs::Judge::bad_period_at))]
    fn is_bad(&self, at: usize) -> bool
        requires { at + 3 < length self.now.file.now }
        ensures { result ≡ bad_at (as_headed self.now) at }
    {
        let period = u32::from(self.file[at] % 16) * 256 + u32::from(self.file[at + 1]);
        self.is_bad_number(at) | is_bad_period(period)
    }

    // Whether one of the first n cells is bad: no cell's test decides whether the next is read. Each cell of the first half is tested at once
    // with one of the second half: one cell at a time takes 1.8 times as long, measured at 16,384 cells. Where n is odd the middle one is
    // in both.
    pub fn some_bad(&self, n: usize) -> bool
        requires { self.now.layout.patterns + 4 * n ≤ length self.now.file.now }
        ensures { result ≡ some (bad_cell (as_headed self.now)) n }
    {
        let half = n / 2;
        let rest = n - half;
        let mut bytes = 0;
        let mut marks = 0;
        for i in 0..rest {
            let high = halves::first_two(self.file, self.layout.patterns + CELL_BYTES * i);
            let low = halves::first_two(self.file, self.layout.patterns + CELL_BYTES * (half + i));
            let both = high * halves::HIGH + low;
            bytes |= both;
            marks |= halves::marks(both);
        }
        halves::is_seen_bad(self.layout, bytes, marks)
    }

    // The first bad cell of the first n.
    pub fn bad_cell(&self, n: usize) -> Option<usize>
        requires { self.now.layout.patterns + 4 * n ≤ length self.now.file.now }
        ensures found { result ≡ found (bad_cell (as_headed self.now)) n }
        ensures below { IfSome result (λ i. i < n) }
    {
        first(n, |i| self.is_bad(self.layout.patterns + CELL_BYTES * i))
    }
}
