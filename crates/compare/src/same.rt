// Whether two trees are the same, as docs/VECTORS.md compares them: bit for bit, and passing over what a slot's kind does not use.
ghost use Rattle.std.specs.Prelude.{◌&&◌, ◌≡◌, Bool, eqb};
ghost use Rattle.rules.specs.Lists.{same_list};
ghost use Rattle.rules.specs.Tree.{same_tile, listed};
ghost use Rattle.compare.specs.Same.{same_bits, same_slot, same_tree};

use rules::model::{Kind, Sixteen, Slot, TileId, TileTree};

// What a list's entries are compared by.
pub trait Same: Copy {
    ghost same: { Self → Self → Bool };

    fn same(self, other: Self) -> bool
        ensures { result ≡ same self other };
}

impl Same for u64 {
    ghost same = { eqb };

    fn same(self, other: u64) -> bool {
        self == other
    }
}

impl Same for TileId {
    ghost same = { same_tile };

    fn same(self, other: TileId) -> bool {
        self == other
    }
}

impl Same for f64 {
    ghost same = { same_bits };

    fn same(self, other: f64) -> bool {
        same_real(self, other)
    }
}

impl Same for Slot {
    ghost same = { same_slot };

    fn same(self, other: Slot) -> bool {
        same_slot(self, other)
    }
}

// Whether two reals have the same bits; two NaNs are the same.
pub fn same_real(x: f64, y: f64) -> bool
    ensures { result ≡ same_bits x y }
{
    if x == x {
        if y == y {
            return f64::to_bits(x) == f64::to_bits(y);
        }
        return false;
    }
    !(y == y)
}

// Two lists, entry by entry.
fn same_entries<T: Same>(xs: &[T], ys: &[T]) -> bool
    ensures { result ≡ same_list T.same xs.now ys.now }
{
    xs.len() == ys.len() && xs.iter().zip(ys).all(|(x, y)| x.same(*y))
}

// The lengths, then the entries before them; of a length over 16, all that are there.
pub fn same_sixteen<T: Same>(a: Sixteen<T>, b: Sixteen<T>) -> bool
    ensures { result ≡ (eqb a.len b.len && same_list T.same (listed a) (listed b)) }
{
    let n = a.len.min(16);
    a.len == b.len && same_entries(&a.at[..n], &b.at[..n])
}

// What the kind uses alone.
pub fn same_slot(a: Slot, b: Slot) -> bool
    ensures { result ≡ same_slot a b }
{
    match (a.kind, b.kind) {
        (Kind::Empty, Kind::Empty) => true,
        (Kind::Pane(p), Kind::Pane(q)) => p == q,
        (Kind::Tabs(c), Kind::Tabs(d)) => {
            c == d && a.active == b.active && same_sixteen(a.panes, b.panes)
        }
        (Kind::Split(x), Kind::Split(y)) => {
            x == y
                && same_sixteen(a.children, b.children)
                && same_sixteen(a.shares, b.shares)
                && same_sixteen(a.minima, b.minima)
        }
        _ => false,
    }
}

// Root, revision and each of the slots.
pub fn same_tree(a: TileTree, b: TileTree) -> bool
    ensures { result ≡ same_tree a b }
{
    a.root == b.root && a.revision == b.revision && same_entries(&a.slots, &b.slots)
}
