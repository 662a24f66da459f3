// Neighbouring cells filled with one number: eight together, which a machine stores at once. A fill may write over cells behind those it is asked for.
ghost use Rattle.std.specs.Prelude.{◌+◌, ◌<◌, ◌≤◌, length};
ghost use Rattle.runs.specs.Inverses.{most_frames, lasting};
ghost use Rattle.runs.specs.Written.{Written};

// How many cells are filled together.
const TOGETHER: usize = 8;

// A line that grows by this or more leaves a byte after one fill.
const QUICK: usize = 8192;

// A number, stored into the cells of all frames in which a line of this growth stays in a byte.
pub fn fill_byte(y: i16, growth: usize, cells: &mut [i16])
    requires { most_frames ≤ length cells.old }
    ensures { Written (λ j. y) 0 (lasting growth) cells.old cells.new }
{
    cells[..TOGETHER].fill(y);
    if growth < QUICK {
        cells[TOGETHER..2 * TOGETHER].fill(y);
    }
}
