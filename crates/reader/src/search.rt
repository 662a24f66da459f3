// A search over the numbers below a bound.
ghost use Rattle.std.specs.Prelude.{ℕ, ◌≡◌, ◌<◌, Bool, IfSome};
ghost use Rattle.reader.specs.Search.{found};

// The first number below n that passes, if any does.
pub fn first<F: Fn(usize) -> bool>(n: usize, passes: F) -> Option<usize>
    requires { (i : ℕ) → i < n → F.pre passes i }
    ensures below { IfSome result (λ i. i < n) }
    ensures found { (p : ℕ → Bool) → ((i : ℕ) (b : Bool) → i < n → F.post passes i b → b ≡ p i) → result ≡ found p n }
{
    for i in 0..n {
        if passes(i) {
            return Some(i);
        }
    }
    None
}
