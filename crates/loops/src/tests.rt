// Tests of the first n of a list.
// Kept: two functions of one line each: one that takes the test would say `F.pre` and `F.post` of it, and each caller would pass it.
ghost use Rattle.std.specs.Prelude.{◌≡◌, ◌≤◌, take};
ghost use Rattle.rules.specs.Numbers.{share_ok, minimum_ok};
ghost use Rattle.rules.specs.Lists.{all_of};

// The Rust's `shares.iter().all(..)`: every share finite and positive.
pub fn shares_ok(xs: &[f64; 16], n: usize) -> bool
    requires { n ≤ 16 }
    ensures { result ≡ all_of share_ok (take n xs.now) }
{
    xs[..n].iter().all(|x| number::share_ok(*x))
}

// The Rust's `min_major.iter().all(..)`: every minimum finite and not negative.
pub fn minima_ok(xs: &[f64; 16], n: usize) -> bool
    requires { n ≤ 16 }
    ensures { result ≡ all_of minimum_ok (take n xs.now) }
{
    xs[..n].iter().all(|x| number::minimum_ok(*x))
}
