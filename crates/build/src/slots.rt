// The 64 slots, as columns: each row's in its place, and the others empty.
ghost use Rattle.build.specs.Slots.{Slotted, Bare, ColumnsAre};

use crate::slot::slot_of;
use checks::entry::known_row;
use columns::unpack::put;
use table::row::Taken;
use table::sections::Places;

// The slots of the first `end` rows, as many as push_spec came to, into columns that show none.
// Kept: four columns, as the C calls lend them, one by one.
pub fn slots_into(
    b: &[u8],
    t: Places,
    kids: &[u64; 1024],
    end: usize,
    heads: &mut [[u64; 8]; 64],
    ids: &mut [[u64; 16]; 64],
    shares: &mut [[f64; 16]; 64],
    minima: &mut [[f64; 16]; 64],
)
    requires slotted { Slotted b.now t kids.now end }
    requires bare { Bare heads.old ids.old shares.old minima.old }
    ensures { ColumnsAre b.now t kids.now end heads.new ids.new shares.new minima.new }
{
    let mut taken = Taken::NONE;
    for i in 0..end {
        let row = known_row(b, t, i);
        let slot = slot_of(b, t, kids, row, i, taken);
        put(heads, ids, shares, minima, i, slot);
        taken = taken.with(row);
    }
}
