// The Rust's `push_spec` (tree.rs): a row calls itself for its children, and the rows left fall.
// A tile's number is its row's, and all else of a slot can be read off the row, so that only the children's numbers are written here:
// 16 places for each row, in one lent array.
ghost use Rattle.table.specs.Rows.{rows_at};
ghost use Rattle.build.specs.Push.{Ready, Pushed};

use checks::entry::known_row;
use table::row::children_used;
use table::sections::Places;

// Builds the row `at` and what stands under it; answers the row that comes next.
// Kept: the bytes and the places are two arguments, as in all of `checks` and `build`: of one struct each clause would name both fields.
pub fn push_spec(b: &[u8], t: Places, kids: &mut [u64; 1024], at: usize) -> usize
    requires { Ready b.now t kids.old at }
    ensures { Pushed (rows_at b.now t) kids.old kids.new at result }
{
    if t.rows.count <= at {
        return at;
    }
    let n = children_used(known_row(b, t, at));
    let mut next = at + 1;
    for j in 0..n {
        kids[16 * at + j] = next as u64;
        next = push_spec(b, t, kids, next);
    }
    next
}
