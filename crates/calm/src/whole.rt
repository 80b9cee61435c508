// The whole walk: from the root, and then whether an occupied slot was left out.
// Kept: the four columns are four parameters (why: columns/src/lib.rt).
ghost use Rattle.std.specs.Prelude.{◌≡◌, false, [], ℕ, get_or, replicate};
ghost use Rattle.rules.specs.Tree.{tile};
ghost use Rattle.columns.specs.Columns.{nodes_from, Slim};
ghost use Rattle.calm.specs.Calm.{look, calm, calm_end};

use crate::nodes;
use noting::sweep;

// Whether repair would note nothing of the slots that columns show.
pub fn calm_columns(
    root: u64,
    heads: &[[u64; 8]; 64],
    ids: &[[u64; 16]; 64],
    shares: &[[f64; 16]; 64],
    minima: &[[f64; 16]; 64],
) -> bool
    requires { (i : ℕ) → Slim (get_or heads.now i []) }
    ensures { result ≡ calm_end (nodes_from heads.now ids.now shares.now minima.now) (calm 64 (nodes_from heads.now ids.now shares.now minima.now) (tile root) (look (replicate 64 false) [])) }
{
    let mut claimed = [false; 64];
    let mut seen = [0u64; 1024];
    let walked = nodes::calm_node(
        heads,
        ids,
        shares,
        minima,
        &mut claimed,
        &mut seen,
        0,
        root,
        64,
    );
    walked.is_ok() && sweep::none_lost(heads, &claimed)
}
