// From slots to columns, and the test of lists given too long.
// Kept: the four columns are four parameters (why: columns/src/lib.rt).
ghost use Rattle.std.specs.Prelude.{◌≡◌, map, ◌<◌};
ghost use Rattle.rules.specs.Lists.{any_of};
ghost use Rattle.columns.specs.Pack.{Unpacks, Puts, over_head, slot_of, head_of, ids_of};

use rules::model::{Kind, Slot, TileId};

// A slot's head: the lengths that its kind does not use are 0.
fn head_of(s: Slot) -> [u64; 8]
    ensures { result ≡ head_of s }
{
    match s.kind {
        Kind::Empty => [0; 8],
        Kind::Pane(p) => [1, 0, p, 0, 0, 0, 0, 0],
        Kind::Tabs(b) => [2, b as u64, 0, s.active as u64, s.panes.len as u64, 0, 0, 0],
        Kind::Split(a) => [
            3,
            a as u64,
            0,
            0,
            s.children.len as u64,
            s.shares.len as u64,
            s.minima.len as u64,
            0,
        ],
    }
}

// The slot numbers of tiles.
fn numbers_of(at: [TileId; 16]) -> [u64; 16]
    ensures { result ≡ map slot_of at }
{
    let mut row = [0; 16];
    for i in 0..16 {
        row[i] = at[i].slot;
    }
    row
}

// A split's children, or the panes.
fn ids_row(s: Slot) -> [u64; 16]
    ensures { result ≡ ids_of s }
{
    match s.kind {
        Kind::Empty | Kind::Pane(_) | Kind::Tabs(_) => s.panes.at,
        Kind::Split(_) => numbers_of(s.children.at),
    }
}

// A slot into one row of each column.
pub fn put(
    heads: &mut [[u64; 8]; 64],
    ids: &mut [[u64; 16]; 64],
    shares: &mut [[f64; 16]; 64],
    minima: &mut [[f64; 16]; 64],
    i: usize,
    s: Slot,
)
    requires { i < 64 }
    ensures { Puts i s heads.old ids.old shares.old minima.old heads.new ids.new shares.new minima.new }
{
    let parts = s.shares.at;
    let least = s.minima.at;
    heads[i] = head_of(s);
    ids[i] = ids_row(s);
    shares[i] = parts;
    minima[i] = least;
}

// All four columns in one pass.
pub fn unpack(
    slots: [Slot; 64],
    heads: &mut [[u64; 8]; 64],
    ids: &mut [[u64; 16]; 64],
    shares: &mut [[f64; 16]; 64],
    minima: &mut [[f64; 16]; 64],
)
    ensures { Unpacks slots heads.new ids.new shares.new minima.new }
{
    for i in 0..64 {
        put(heads, ids, shares, minima, i, slots[i]);
    }
}

// Whether a head has a length of over 16: then not all of its list is there.
fn is_over(h: [u64; 8]) -> bool
    ensures { result ≡ over_head h }
{
    16 < h[4] || 16 < h[5] || 16 < h[6]
}

// Whether a list that a kind uses was given longer than 16, by the heads.
pub fn heads_over(heads: &[[u64; 8]; 64]) -> bool
    ensures { result ≡ any_of over_head heads.now }
{
    heads.iter().any(|h| is_over(*h))
}
