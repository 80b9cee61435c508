// The Rust's `validate_spec` and `validate_pane` (spec.rs): rows stand in preorder, so its recursion is a walk along them.
// The panes seen so far are the first of the panes section.
ghost use Rattle.std.specs.Prelude.{◌≡◌, Bool, not, Float, [], ◌+◌, ◌≤◌, take, drop};
ghost use Rattle.rules.specs.Lists.{position};
ghost use Rattle.rules.specs.Spec.{duplicate, tabs_refusal, split_refusal, row_refusal, validate, left_of};
ghost use Rattle.lists.specs.Find.{place_of};
ghost use Rattle.table.specs.Row.{row_is};
ghost use Rattle.reader.specs.Section.{Held};
ghost use Rattle.table.specs.Sections.{Placed};
ghost use Rattle.table.specs.Rows.{panes_at, reals_at, table_of, Used};
ghost use Rattle.checks.specs.Checks.{checked_as, left_at, Room, Loaded};

use crate::entry::{known_row, pane_at, real_at};
use reader::cursor::Section;
use rules::refusal::Refusal;
use table::row::{TableRow, Taken};
use table::sections::Places;

// The panes section, read once: 64 rows of at most 16 have at most 1,024 panes.
fn load_panes(b: &[u8], t: Places) -> [u64; 1024]
    requires placed { Placed b.now t }
    requires few { t.panes.count ≤ 1024 }
    ensures { Loaded b.now t result }
{
    let mut panes = [0u64; 1024];
    for j in 0..t.panes.count {
        panes[j] = pane_at(b, t, j);
    }
    panes
}

// `validate_pane` of each of n panes after the first p.
fn first_duplicate(panes: &[u64; 1024], p: usize, n: usize) -> Result<(), Refusal>
    requires { p + n ≤ 1024 }
    ensures { checked_as result ≡ duplicate (take p panes.now) (take n (drop p panes.now)) }
{
    for k in 0..n {
        let x = panes[p + k];
        if panes[..p + k].contains(&x) {
            return Err(Refusal::DuplicatePane(x));
        }
    }
    Ok(())
}

// The arm of TileSpec::Tabs.
fn check_tabs(panes: &[u64; 1024], p: usize, n: usize, active: usize) -> Result<(), Refusal>
    requires { p + n ≤ 1024 }
    ensures { checked_as result ≡ tabs_refusal active (take n (drop p panes.now)) (take p panes.now) }
{
    if n == 0 {
        return Err(Refusal::EmptyTabs);
    }
    if n <= active {
        return Err(Refusal::InvalidActiveTab { active, panes: n });
    }
    first_duplicate(panes, p, n)
}

// `position` of the first of n reals, after the first from, that is not good.
fn first_bad<F: Fn(f64) -> bool>(
    b: &[u8],
    reals: Section,
    from: usize,
    n: usize,
    good: F,
) -> Option<usize>
    ghost test: { Float → Bool }
    requires held { Held b.now reals }
    requires inside { from + n ≤ reals.count }
    requires callable { F.IsAlwaysCallable good }
    requires tests { (x : Float) (r : Bool) → F.post good x r → r ≡ test x }
    ensures { place_of result ≡ position (λ x. not (test x)) (take n (drop from (reals_at b.now reals))) }
{
    for i in 0..n {
        if !good(real_at(b, reals, from + i)) {
            return Some(i);
        }
    }
    None
}

// The arm of TileSpec::Split, up to its children: n of them, with ns shares and nm minima after those that are taken.
fn check_split(
    b: &[u8],
    t: Places,
    n: usize,
    taken: Taken,
    ns: usize,
    nm: usize,
) -> Result<(), Refusal>
    requires placed { Placed b.now t }
    requires shares { taken.shares + ns ≤ t.shares.count }
    requires minima { taken.minima + nm ≤ t.minima.count }
    ensures { checked_as result ≡ split_refusal n (take ns (drop taken.shares (table_of b.now t).shares)) (take nm (drop taken.minima (table_of b.now t).minima)) }
{
    if n < 2 {
        return Err(Refusal::TooFewSplitChildren { children: n });
    }
    if n != ns {
        return Err(Refusal::ShareCountMismatch {
            children: n,
            shares: ns,
        });
    }
    if let Some(index) = first_bad(b, t.shares, taken.shares, ns, number::share_ok) {
        return Err(Refusal::InvalidShare { index });
    }
    if n < nm {
        return Err(Refusal::TooManySplitConstraints {
            children: n,
            constraints: nm,
        });
    }
    if let Some(index) = first_bad(b, t.minima, taken.minima, nm, number::minimum_ok) {
        return Err(Refusal::InvalidSplitConstraint { index });
    }
    Ok(())
}

// One row, after those that took what is taken.
fn check_row(
    b: &[u8],
    t: Places,
    panes: &[u64; 1024],
    row: TableRow,
    taken: Taken,
) -> Result<(), Refusal>
    requires placed { Placed b.now t }
    requires room { Room t (row_is row) taken }
    requires loaded { Loaded b.now t panes.now }
    ensures { checked_as result ≡ row_refusal (row_is row) (left_at (table_of b.now t) taken) (take taken.panes (panes_at b.now t)) }
{
    match row {
        TableRow::Pane => first_duplicate(panes, taken.panes, 1),
        TableRow::Tabs { count, active, .. } => check_tabs(panes, taken.panes, count, active),
        TableRow::Split {
            count,
            shares,
            minima,
            ..
        } => check_split(b, t, count, taken, shares, minima),
    }
}

// Every row in preorder: the first refusal is the answer.
pub fn check_rows(b: &[u8], t: Places) -> Result<(), Refusal>
    requires placed { Placed b.now t }
    requires used { Used (table_of b.now t) }
    requires few { t.panes.count ≤ 1024 }
    ensures { checked_as result ≡ validate (table_of b.now t).rows (left_of (table_of b.now t)) [] }
{
    let panes = load_panes(b, t);
    let mut taken = Taken::NONE;
    for i in 0..t.rows.count {
        let row = known_row(b, t, i);
        check_row(b, t, &panes, row, taken)?;
        taken = taken.with(row);
    }
    Ok(())
}
