// Scratch cells, one number a frame: one scratch added to another, and two woven into frames.
ghost use Rattle.std.specs.Prelude.{◌*◌, ◌≤◌, length};
ghost use Rattle.runs.specs.Cells.{stride, number_at, sum_at, Roomy, Holds, Woven};

use crate::FRAME_NUMBERS;

// The numbers of one scratch, added to the first of another. (By index: of what a `zip` with `iter_mut` wrote a proof knows the length alone.)
pub fn add_to(to: &mut [i16], from: &[i16])
    requires fits { length to.old ≤ length from.now }
    requires room { Roomy from.now to.old (length to.old) }
    ensures { Holds (sum_at to.old from.now) (length to.old) to.new }
{
    for (k, x) in to.iter_mut().enumerate() {
        *x += from[k];
    }
}

// Frames of two scratches: the numbers of one are left, and those of another right. (By index: of what `chunks_exact_mut` lent, the same.)
pub fn interleave(left: &[i16], right: &[i16], out: &mut [i16])
    requires { (length left.now ≤ length right.now) × (stride * length left.now ≤ length out.old) }
    ensures { Woven (number_at left.now) (number_at right.now) 0 (length left.now) out.old out.new }
{
    for (k, x) in left.iter().enumerate() {
        out[FRAME_NUMBERS * k] = *x;
        out[FRAME_NUMBERS * k + 1] = right[k];
    }
}
