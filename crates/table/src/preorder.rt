// The row rules on all rows, however many there are: kinds, modes and counts, preorder with one root, each section used up exactly.
// Nothing is kept of a row but sums: a count is below 2^32 and a row takes less than 2^16, so that they fit.
ghost use Rattle.std.specs.Prelude.{◌≡◌, ◌&&◌, eqb};
ghost use Rattle.table.specs.Sections.{Placed};
ghost use Rattle.table.specs.Rows.{ok_rows, TableIs};

use crate::row::{Taken, children_used, row_at};
use crate::sections::{Places, find_sections};

// At the end: no tile is still to come, and nothing is left of a section.
fn all_used(t: Places, due: usize, taken: Taken) -> bool
    ensures { result ≡ (eqb due 0 && eqb taken.panes t.panes.count && eqb taken.shares t.shares.count && eqb taken.minima t.minima.count) }
{
    due == 0
        && taken.panes == t.panes.count
        && taken.shares == t.shares.count
        && taken.minima == t.minima.count
}

fn rows_fit(b: &[u8], t: Places) -> bool
    requires { Placed b.now t }
    ensures { result ≡ ok_rows b.now t }
{
    let start = t.rows.start;
    let mut due = 1usize;
    let mut taken = Taken::NONE;
    for i in 0..t.rows.count {
        if due == 0 {
            return false;
        }
        let Some(row) = row_at(b, start + 8 * i) else {
            return false;
        };
        due = due - 1 + children_used(row);
        taken = taken.with(row);
    }
    all_used(t, due, taken)
}

// The table where it stands, or none: document 01's refusal 1.
pub fn read_table(b: &[u8]) -> Option<Places>
    ensures { TableIs b.now result }
{
    let t = find_sections(b)?;
    rows_fit(b, t).then_some(t)
}
