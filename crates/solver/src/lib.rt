// The lengths of a split's children: util.rs's `solve_lengths_with_min`, with the count of its passes, and the public call over it.
// The rule is rules::specs::Solver; what is proved of it stands in specs/.
#![tactic(auto)]

mod checks;
mod passes;

ghost use Rattle.std.specs.Prelude.{◌≡◌, ◌≤◌, ◌<◌, take};
ghost use Rattle.rules.specs.Tree.{reals};
ghost use Rattle.rules.specs.Solver.{sum_of, solve_lengths_with_min, view_solution};
ghost use Rattle.rules.specs.Solver as Rules;
ghost use Rattle.solver.specs.Loop.{begun};
ghost use Rattle.solver.specs.Lent.{Shows};
ghost use Rattle.solver.specs.Call.{Clear, view_solved, reals_of, bad_into, SolvesInto};
ghost use Rattle.loops.specs.Padded.{Padded};
ghost use Rattle.loops.specs.Given.{SumsOf};

use loops::given::{self, Sums};
use loops::kids::Wants;
use loops::{fills, sums};
use rules::model::Reals;
use rules::refusal::{Answer, Refusal};
use rules::solving::Solution;

// The Rust's `Vec<f64>` of lengths, and how often the outer loop ran.
#[derive(Clone, Copy)]
pub struct Solved {
    pub lengths: Reals,
    pub passes: u64,
}

// What the public call answers beside the lengths that it writes: how many, and the passes.
// Kept: numbers beside the answer, in place of a `Result` that holds them: `tiling_c` hands out each of the three (`solve_into`'s contract).
#[derive(Clone, Copy)]
pub struct SolvedInto {
    pub answer: Answer,
    pub len: usize,
    pub passes: u64,
}

// The Rust's case `min_total >= total`: parts by the minima; equal parts where they are all zero.
fn tight(total: f64, least: f64, minima: &[f64; 16], n: usize, lengths: &mut [f64; 16])
    requires { n ≤ 16 }
    ensures { Padded n (Rules.tight total least (take n minima.now)) lengths.new }
{
    if 0.0 < least {
        fills::parts(minima, n, total, least, lengths);
    } else {
        fills::even(n, total / number::whole(n), lengths);
    }
}

// The rest of the Rust's function, from `share_sum` on: the lengths by the shares, or what the outer loop makes of them, and its passes.
fn loose(total: f64, sums: Sums, kids: Wants, lengths: &mut [f64; 16]) -> u64
    requires some { 0 < kids.count }
    requires summed { sums.shares ≡ sum_of (take kids.count kids.shares.now) }
    ensures { Shows (Rules.loose total sums.minima (begun total (take kids.entry.count kids.entry.shares.now) (take kids.entry.count kids.entry.minima.now))) kids.entry.count lengths.new result }
{
    fills::parts(kids.shares, kids.count, total, sums.shares, lengths);
    if sums.minima <= 0.0 {
        0
    } else {
        passes::run(total, kids, lengths)
    }
}

// The Rust's `solve_lengths_with_min`, over the first n of lists that are lent and were summed: it writes the lengths, and answers the passes.
fn solve_lent(total: f64, sums: Sums, kids: Wants, lengths: &mut [f64; 16]) -> u64
    requires { SumsOf kids.count kids.shares.now kids.minima.now sums }
    ensures { Shows (solve_lengths_with_min total (take kids.entry.count kids.entry.shares.now) (take kids.entry.count kids.entry.minima.now)) kids.entry.count lengths.new result }
{
    if kids.count == 0 || total == 0.0 {
        *lengths = [0.0; 16];
        0
    } else if total <= sums.minima {
        tight(total, sums.minima, kids.minima, kids.count, lengths);
        0
    } else {
        loose(total, sums, kids, lengths)
    }
}

// The Rust's `solve_lengths_with_min`, for up to 16 children.
pub fn solve_lengths_with_min(total: f64, shares: Reals, minima: Reals) -> Solved
    requires { (shares.len ≤ 16) × (minima.len ≡ shares.len) }
    ensures { (view_solved result ≡ solve_lengths_with_min total (reals shares) (reals minima)) × (result.lengths.len ≡ shares.len) × Clear result.lengths }
{
    let by = shares.at;
    let least = minima.at;
    let n = shares.len;
    let sums = Sums {
        shares: sums::sum(&by, n),
        minima: sums::sum(&least, n),
    };
    let mut at = [0.0; 16];
    let kids = Wants {
        shares: &by,
        minima: &least,
        count: n,
    };
    let passes = solve_lent(total, sums, kids, &mut at);
    Solved {
        lengths: Reals { at, len: n },
        passes,
    }
}

// A refusal has no lengths and no passes.
fn refused() -> SolvedInto
    ensures { result ≡ bad_into }
{
    SolvedInto {
        answer: Err(Refusal::BadInput),
        len: 0,
        passes: 0,
    }
}

// The public call on lists that are lent: the input is tested where it stands, and minus zero is read as zero. A refusal writes no length.
pub fn solve_into(
    total: f64,
    shares: &[f64; 16],
    share_count: usize,
    minima: &[f64; 16],
    minimum_count: usize,
    lengths: &mut [f64; 16],
) -> SolvedInto
    ensures { SolvesInto (Rules.solve total (reals_of shares.now share_count) (reals_of minima.now minimum_count)) lengths.old lengths.new result }
{
    if !checks::counts_ok(total, share_count, minimum_count) {
        return refused();
    }
    let n = share_count;
    let mut least = [0.0; 16];
    let Ok(sums) = given::read_all(shares, minima, &mut least, n) else {
        return refused();
    };
    let kids = Wants {
        shares,
        minima: &least,
        count: n,
    };
    let passes = solve_lent(number::plus_zero(total), sums, kids, lengths);
    SolvedInto {
        answer: Ok(()),
        len: n,
        passes,
    }
}

// The same by value.
pub fn solve(total: f64, shares: Reals, minima: Reals) -> Solution
    ensures result_value { view_solution result ≡ Rules.solve total shares minima }
    ensures clear { Clear result.lengths }
{
    let by = shares.at;
    let least = minima.at;
    let mut at = [0.0; 16];
    let d = solve_into(total, &by, shares.len, &least, minima.len, &mut at);
    Solution {
        answer: d.answer,
        lengths: Reals { at, len: d.len },
        passes: d.passes,
    }
}
