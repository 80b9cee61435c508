// An arena's slots as columns: a field at a time, in arrays of numbers that can be lent to a recursion, since a tree by value in one would cost its size
// in stack at each level. A slot's head is kind (0 empty, 1 pane, 2 group, 3 split), mode (a group's placement, a split's axis), pane, active, and the
// lengths of its ids, shares and minima. Beside them the list of actions that repair writes, and its report.
// Kept: heads, ids, shares and minima are four parameters: C lends them one by one; what a struct of four `&mut` leaves in them is not known (goal `returns`); one of four `&` is named four times in each clause.
// Kept: what a head holds, kinds and modes too, are numbers: C lends the heads.
#![tactic(auto)]

use rules::model::RepairAction;

pub mod modes;
pub mod pack;
pub mod slots;
pub mod unpack;

// The actions of a repair, in order: the Rust's RepairReport. 1,300 places always suffice.
// Kept: places with a length beside them, and no Vec: the library uses no heap.
#[derive(Clone, Copy)]
pub struct Report {
    pub at: [RepairAction; 1300],
    pub len: usize,
}
