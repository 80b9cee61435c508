// Trees as the stored answers hold them: a root, a revision, and the slots that are named.
ghost use Rattle.std.specs.Prelude.{◌≡◌, ◌≤◌, length};
ghost use Rattle.rules.specs.Tree.{axis_code, bar_code};

use crate::Reader;
use rules::model::{Axis, Ids, Kind, Reals, Slot, TabBarPlacement, TileId, TileTree, Tiles};

// A slot of no kind.
const EMPTY: Slot = Slot {
    kind: Kind::Empty,
    active: 0,
    panes: Ids {
        at: [0; 16],
        len: 0,
    },
    children: Tiles {
        at: [TileId { slot: 0 }; 16],
        len: 0,
    },
    shares: Reals {
        at: [0.0; 16],
        len: 0,
    },
    minima: Reals {
        at: [0.0; 16],
        len: 0,
    },
};

// A tab bar placement by its number; past the table, the first.
// Kept: a `From<u64>` of `TabBarPlacement` stands in `rules` or nowhere, and there a number past the table has no one reading (`bar_from` takes the last).
pub fn bar(n: u64) -> TabBarPlacement
    ensures { n ≤ 4 → bar_code result ≡ n }
{
    match n {
        1 => TabBarPlacement::Top,
        2 => TabBarPlacement::Bottom,
        3 => TabBarPlacement::Left,
        4 => TabBarPlacement::Right,
        _ => TabBarPlacement::Hidden,
    }
}

// An axis by its number; past the table, the first.
// Kept: a `From<u64>` of `Axis` stands in `rules` or nowhere, and there a number past the table has no one reading (`axis_from` takes the last).
pub fn axis(n: u64) -> Axis
    ensures { n ≤ 1 → axis_code result ≡ n }
{
    match n {
        1 => Axis::Vertical,
        _ => Axis::Horizontal,
    }
}

impl<'a> Reader<'a> {
    // What stands in a slot of this kind: what that kind uses is read; past the table, nothing.
    pub fn slot_of(&mut self, kind: u64) -> Slot
        ensures { length self.new.rest.now ≤ length self.old.rest.now }
    {
        let mut slot = EMPTY;
        match kind {
            1 => slot.kind = Kind::Pane(self.number()),
            2 => {
                slot.kind = Kind::Tabs(bar(self.number()));
                slot.active = self.number() as usize;
                slot.panes = self.ids();
            }
            3 => {
                slot.kind = Kind::Split(axis(self.number()));
                slot.children = self.tiles();
                slot.shares = self.reals();
                slot.minima = self.reals();
            }
            _ => {}
        }
        slot
    }

    // A slot with its number, which stands first; then its kind, and what that kind uses.
    pub fn slot_in(&mut self) -> (u64, Slot)
        ensures { length self.new.rest.now ≤ length self.old.rest.now }
    {
        let which = self.number();
        let kind = self.number();
        (which, self.slot_of(kind))
    }

    // Only the slots that differ are named; the others are as they were before. One past the arena is passed over.
    pub fn tree_after(&mut self, before: TileTree) -> TileTree
        ensures { length self.new.rest.now ≤ length self.old.rest.now }
    {
        let root = self.tile();
        let revision = self.number();
        let mut slots = before.slots;
        for _ in 0..self.number() {
            let (which, slot) = self.slot_in();
            if which < 64 {
                slots[which as usize] = slot;
            }
        }
        TileTree {
            root,
            revision,
            slots,
        }
    }

    // Every slot that is not named is empty.
    pub fn tree(&mut self) -> TileTree
        ensures { length self.new.rest.now ≤ length self.old.rest.now }
    {
        self.tree_after(TileTree {
            root: TileId { slot: 0 },
            revision: 0,
            slots: [EMPTY; 64],
        })
    }
}
