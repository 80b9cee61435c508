// The one sound tree that repair would alter: its only occupied slot is the root, an empty Hidden group with active 0.
// Kept: the four columns are four parameters (why: columns/src/lib.rt).
ghost use Rattle.std.specs.Prelude.{◌≡◌, [], ℕ, ◌<◌, length, get_or};
ghost use Rattle.rules.specs.Sound.{lone_empty_root};
ghost use Rattle.columns.specs.Shown.{arena_from, Plain};
ghost use Rattle.settling.specs.Lone.{is_blank};

use columns::slots;
use noting::sweep;

fn is_blank(h: [u64; 8]) -> bool
    ensures { result ≡ is_blank h }
{
    h[0] == 2 && h[1] == 0 && h[3] == 0 && h[4] == 0
}

// The root's row of ids has 16 places, where there is one.
pub fn root_row(ids: &[[u64; 16]; 64], root: u64)
    ensures { root < 64 → length (get_or ids.now root []) ≡ 16 }
{
    if root < 64 {
        slots::full(ids[root as usize]);
    }
}

// The root's head, and then whether a sweep that keeps the root alone would empty no slot.
pub fn lone_empty_root(
    root: u64,
    heads: &[[u64; 8]; 64],
    ids: &[[u64; 16]; 64],
    shares: &[[f64; 16]; 64],
    minima: &[[f64; 16]; 64],
) -> bool
    requires { Plain heads.now ids.now shares.now minima.now }
    ensures { (v : ℕ) → result ≡ lone_empty_root (arena_from root v heads.now ids.now shares.now minima.now) }
{
    root_row(ids, root);
    if 64 <= root {
        return false;
    }
    let i = root as usize;
    if !is_blank(heads[i]) {
        return false;
    }
    let mut claimed = [false; 64];
    claimed[i] = true;
    sweep::none_lost(heads, &claimed)
}
