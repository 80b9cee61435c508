// The tests of the public call before its lists are read: document 01's limit of 16, the Rust's `debug_assert_eq!` of the counts, and the total.
ghost use Rattle.std.specs.Prelude.{◌≡◌};
ghost use Rattle.solver.specs.Call.{counts_ok};

// Counts are tested first, so that nothing past them is read.
pub fn counts_ok(total: f64, n: usize, m: usize) -> bool
    ensures { result ≡ counts_ok n m total }
{
    n <= 16 && m == n && number::minimum_ok(total)
}
