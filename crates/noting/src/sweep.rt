// Searches of the heads: the sweep of what the walk did not claim, whether there is any, and the lowest empty slot.
ghost use Rattle.std.specs.Prelude.{◌≡◌, ◌+◌, ◌≤◌, length, List, ℕ, Float};
ghost use Rattle.rules.specs.Tree.{empty_slots};
ghost use Rattle.columns.specs.Columns.{nodes_from};
ghost use Rattle.columns.specs.Pack.{Sweeps, NoneLost, first_of};

use crate::actions;
use rules::model::{RepairAction, TileId};

// What the walk did not claim is emptied, and listed where it was occupied.
pub fn sweep(
    heads: &mut [[u64; 8]; 64],
    claimed: &[bool; 64],
    acts: &mut [[u64; 3]],
    n: usize,
) -> usize
    requires { n + 64 ≤ 1300 }
    ensures { Sweeps heads.old claimed.now acts.old n heads.new acts.new result }
{
    let mut m = n;
    for i in 0..64 {
        if claimed[i] {
            continue;
        }
        let lost = RepairAction::RemovedInvalidNode(TileId { slot: i as u64 });
        m = actions::note_action_if(acts, m, heads[i][0] != 0, lost);
        heads[i] = [0; 8];
    }
    m
}

// Whether every occupied slot is claimed, so that a sweep would empty none.
pub fn none_lost(heads: &[[u64; 8]; 64], claimed: &[bool; 64]) -> bool
    ensures { NoneLost heads.now claimed.now result }
{
    for i in 0..64 {
        if !claimed[i] && heads[i][0] != 0 {
            return false;
        }
    }
    true
}

// The lowest empty slot, 64 where there is none.
// Kept: 64 for none is the rules' word `first_of`, in which `Settles`, the clause of `settling::settle::settle`, takes the spare slot.
pub fn first_empty(heads: &[[u64; 8]; 64]) -> u64
    ensures { (xs : List (List ℕ)) (ss ms : List (List Float)) → length xs ≡ 64 → length ss ≡ 64 → length ms ≡ 64 → result ≡ first_of (empty_slots (nodes_from heads.now xs ss ms)) }
{
    for i in 0..64 {
        if heads[i][0] == 0 {
            return i as u64;
        }
    }
    64
}
