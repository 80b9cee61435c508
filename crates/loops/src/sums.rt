// Sums over the first n of an array, from left to right, from plus zero.
ghost use Rattle.std.specs.Prelude.{◌≡◌, ◌≤◌, take};
ghost use Rattle.rules.specs.Solver.{sum_of};

// The Rust's `xs.iter().copied().sum::<f64>()`.
pub fn sum(xs: &[f64; 16], n: usize) -> f64
    requires { n ≤ 16 }
    ensures { result ≡ sum_of (take n xs.now) }
{
    xs[..n].iter().fold(0.0, |t, x| t + *x)
}
