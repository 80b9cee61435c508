// A tile and a split, read only: a tile's reading calls a split's, which calls back. Depth falls from tile to tile.
// Kept: the four columns are four parameters (why: columns/src/lib.rt).
ghost use Rattle.std.specs.Prelude.{◌≡◌, List, map, [], ℕ, ◌+◌, ◌*◌, ◌≤◌, ◌<◌, Float, length, take, get_or};
ghost use Rattle.rules.specs.Tree.{tile, node_at};
ghost use Rattle.rules.specs.Repair.{melts};
ghost use Rattle.forest.specs.Lists.{free};
ghost use Rattle.columns.specs.Columns.{axis_from, nodes_from, Slim};
ghost use Rattle.calm.specs.Calm.{look, calm, calm_split};
ghost use Rattle.calm.specs.Reads.{Reads};

use crate::{leaves, split_lists};
use melting::rows;

// Whether repair would melt a child in, as it stands.
fn melts_in(heads: &[[u64; 8]; 64], child: u64, mode: u64, minimum: f64) -> bool
    ensures { (xs : List (List ℕ)) (ss ms : List (List Float)) → length xs ≡ 64 → length ss ≡ 64 → length ms ≡ 64 → result ≡ melts (axis_from mode) minimum (node_at (nodes_from heads.now xs ss ms) (tile child)) }
{
    if 64 <= child {
        return false;
    }
    let i = child as usize;
    let h = heads[i];
    rows::is_meltable(h, mode, minimum)
}

// normalize_node, read only
#[cycle(calm_node_calm_split)]
pub fn calm_node(
    heads: &[[u64; 8]; 64],
    ids: &[[u64; 16]; 64],
    shares: &[[f64; 16]; 64],
    minima: &[[f64; 16]; 64],
    claimed: &mut [bool; 64],
    seen: &mut [u64; 1024],
    n: usize,
    id: u64,
    depth: u64,
) -> Result<usize, usize>
    requires slim { (i : ℕ) → Slim (get_or heads.now i []) }
    requires room { n + 16 * free claimed.old ≤ 1024 }
    ensures { Reads (calm depth (nodes_from heads.now ids.now shares.now minima.now) (tile id) (look claimed.old (take n seen.old))) claimed.old n claimed.new seen.new result }
{
    if depth == 0 {
        return Err(n);
    }
    if 64 <= id {
        return Err(n);
    }
    let i = id as usize;
    if claimed[i] {
        return Err(n);
    }
    let h = heads[i];
    let kind = h[0];
    if kind == 0 {
        return Err(n);
    }
    claimed[i] = true;
    if kind == 1 {
        return leaves::calm_pane(seen, n, h[2]);
    }
    if kind == 2 {
        return leaves::calm_group(seen, n, h, &ids[i]);
    }
    calm_split(
        heads,
        ids,
        shares,
        minima,
        claimed,
        seen,
        n,
        id,
        &ids[i],
        depth - 1,
    )
}

// normalize_split, read only, of a split whose slot is claimed
#[cycle(calm_node_calm_split)]
fn calm_split(
    heads: &[[u64; 8]; 64],
    ids: &[[u64; 16]; 64],
    shares: &[[f64; 16]; 64],
    minima: &[[f64; 16]; 64],
    claimed: &mut [bool; 64],
    seen: &mut [u64; 1024],
    n: usize,
    id: u64,
    kids: &[u64; 16],
    depth: u64,
) -> Result<usize, usize>
    requires slim { (i : ℕ) → Slim (get_or heads.now i []) }
    requires room { n + 16 * free claimed.old ≤ 1024 }
    requires inside { id < 64 }
    ensures { Reads (calm_split (calm depth (nodes_from heads.now ids.now shares.now minima.now)) (nodes_from heads.now ids.now shares.now minima.now) (axis_from (get_or (get_or heads.now id []) 1 0)) (map tile (take (get_or (get_or heads.now id []) 4 0) kids.now)) (take (get_or (get_or heads.now id []) 5 0) (get_or shares.now id [])) (take (get_or (get_or heads.now id []) 6 0) (get_or minima.now id [])) (look claimed.old (take n seen.old))) claimed.old n claimed.new seen.new result }
{
    let i = id as usize;
    if !split_lists::lists_calm(heads, shares, minima, i) {
        return Err(n);
    }
    let mode = heads[i][1];
    let count = heads[i][4] as usize;
    let least = heads[i][6] as usize;
    let mut m = n;
    for j in 0..count {
        let child = kids[j];
        m = calm_node(heads, ids, shares, minima, claimed, seen, m, child, depth)?;
        let minimum = split_lists::minimum_at(&minima[i], least, j);
        if melts_in(heads, child, mode, minimum) {
            return Err(m);
        }
    }
    Ok(m)
}
