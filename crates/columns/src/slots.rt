// How many places a row has, which only a row by value tells; and which slot is empty.
ghost use Rattle.std.specs.Prelude.{◌≡◌, length};
ghost use Rattle.rules.specs.Tree.{view_slot, is_empty};

use rules::model::{Kind, Slot};

// A row has 16 places.
// Kept: a lent array of rows does not tell theirs: `length (get_or ids.now root []) ≡ 16` stays open in `lone::root_row` with no call that takes the row by value.
pub fn full(row: [u64; 16])
    ensures { length row ≡ 16 }
{}

pub fn is_empty(s: Slot) -> bool
    ensures { result ≡ is_empty (view_slot s) }
{
    matches!(s.kind, Kind::Empty)
}
