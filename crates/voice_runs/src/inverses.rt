// Inverses: what is divided by again and again is divided by once, and multiplied with from then on.
ghost use Rattle.std.specs.Prelude.{◌≡◌};
ghost use Rattle.runs.specs.Inverses.{inverse_of};

// An inverse counts in so many parts.
pub const UNIT: usize = 70368744177664;

// The inverse of a growth.
pub fn inverse(growth: usize) -> usize
    ensures { result ≡ inverse_of growth }
{
    if growth == 0 {
        return 1;
    }
    UNIT / growth + 1
}
