// Shares of a split, and split fractions.
// Kept: no type says that a length is at most 16: lists with one over 16 come in, and the clause of `repair::whole::repair` speaks of them.
ghost use Rattle.std.specs.Prelude.{◌≡◌, map, ◌≤◌, take};
ghost use Rattle.std.specs.List.{list_any};
ghost use Rattle.rules.specs.Numbers.{share_ok, is_valid_split_fraction};
ghost use Rattle.rules.specs.Shares.{fix_share, repaired_shares, eq_reals};
ghost use Rattle.rules.specs.Tree as Tree;
ghost use Rattle.lists.specs.Exact.{IsReals};

use rules::model::Reals;

// A share as repaired_shares keeps it: one that is not finite or not positive becomes 1.0.
#[tactic(auto, unfolding(rules::specs::Shares::fix_share))]
pub fn fix_share(share: f64) -> f64
    ensures { result ≡ fix_share share }
{
    if number::share_ok(share) { share } else { 1.0 }
}

// The flag of repaired_shares: whether any share was good.
fn any_good(shares: Reals) -> bool
    requires { shares.len ≤ 16 }
    ensures { result ≡ list_any share_ok (take shares.len shares.at) }
{
    shares.at[..shares.len].iter().any(|x| number::share_ok(*x))
}

// The second list of repaired_shares.
fn mended(shares: Reals) -> Reals
    requires { shares.len ≤ 16 }
    ensures { IsReals result (map fix_share (Tree.reals shares)) }
{
    let mut at = [0.0; 16];
    for j in 0..shares.len {
        at[j] = fix_share(shares.at[j]);
    }
    Reals {
        at,
        len: shares.len,
    }
}

// repaired_shares
pub fn repaired_shares(count: usize, shares: Reals) -> Reals
    requires { (count ≤ 16) × (shares.len ≤ 16) }
    ensures { IsReals result (repaired_shares count (Tree.reals shares)) }
{
    if shares.len == count && any_good(shares) {
        mended(shares)
    } else {
        lists::repeat(count, 1.0)
    }
}

// is_valid_split_fraction, whose first two tests are a share's: the one place that tests a split fraction.
pub fn is_valid_split_fraction(value: f64) -> bool
    ensures { result ≡ is_valid_split_fraction value }
{
    number::share_ok(value) && value < 1.0
}

// The Rust's `==` on two Vec<f64>: a NaN makes them differ, a zero's sign does not.
#[tactic(auto, using(crate::proofs::Words::same_is))]
pub fn eq_reals(a: Reals, b: Reals) -> bool
    requires { (a.len ≤ 16) × (b.len ≤ 16) }
    ensures { result ≡ eq_reals (Tree.reals a) (Tree.reals b) }
{
    a.at[..a.len] == b.at[..b.len]
}
