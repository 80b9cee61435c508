// The public call's input, read in one loop, since the sums' additions wait for each other and the tests do not: the Rust's
// `debug_assert!`s, its two sums, and the minima with minus zero as zero.
ghost use Rattle.std.specs.Prelude.{◌≤◌};
ghost use Rattle.loops.specs.Given.{Reads};

// The Rust's `share_sum` and `min_total`.
#[derive(Clone, Copy)]
pub struct Sums {
    pub shares: f64,
    pub minima: f64,
}

// The sums: `Ok` where every share and minimum is good, and `Err` where one is not. A refused input is read to its end too: nothing waits for
// the tests. Each comparison has a flag of its own, since the compiler makes a dozen instructions of `number::share_ok` in a loop, and three of
// a comparison.
pub fn read_all(
    shares: &[f64; 16],
    minima: &[f64; 16],
    least: &mut [f64; 16],
    n: usize,
) -> Result<Sums, Sums>
    requires { n ≤ 16 }
    ensures { Reads n shares.now minima.now least.new result }
{
    let mut share_above = true;
    let mut share_below = true;
    let mut minimum_above = true;
    let mut minimum_below = true;
    let mut share_sum = 0.0;
    let mut min_total = 0.0;
    for i in 0..n {
        let share = shares[i];
        let minimum = minima[i];
        let plain = number::plus_zero(minimum);
        least[i] = plain;
        share_above &= 0.0 < share;
        share_below &= share < f64::INFINITY;
        minimum_above &= 0.0 <= minimum;
        minimum_below &= minimum < f64::INFINITY;
        share_sum += share;
        min_total += plain;
    }
    let sums = Sums {
        shares: share_sum,
        minima: min_total,
    };
    if share_above & share_below & (minimum_above & minimum_below) {
        Ok(sums)
    } else {
        Err(sums)
    }
}
