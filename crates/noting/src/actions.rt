// The list of actions: the Rust's RepairSink. C lends it, so that an action is three numbers there: what was done, to which tile, and the pane of a duplicate
// (else 0). A list of 1,300 places, which always suffice, is the Rust's sink with a list. One of any other length is its sink without: nothing is noted in it.
ghost use Rattle.std.specs.Prelude.{◌≡◌, Bool, ◌<◌};
ghost use Rattle.rules.specs.Repair.{action_code, action_tile, action_pane};
ghost use Rattle.columns.specs.Columns.{code_of, Noted};
ghost use Rattle.columns.specs.Pack.{action_from};

use rules::model::{RepairAction, TileId};

pub const REMOVED_INVALID_NODE: u64 = 0;

pub const REPAIRED_ACTIVE_TAB: u64 = 1;

pub const REPAIRED_SHARES: u64 = 2;

pub const REPAIRED_CONSTRAINTS: u64 = 3;

pub const COLLAPSED_SPLIT: u64 = 4;

pub const REMOVED_DUPLICATE_PANE: u64 = 5;

// The three numbers of an action.
fn code_of(action: RepairAction) -> [u64; 3]
    ensures { result ≡ code_of action }
{
    match action {
        RepairAction::RemovedInvalidNode(tile) => [REMOVED_INVALID_NODE, tile.slot, 0],
        RepairAction::RepairedActiveTab(tile) => [REPAIRED_ACTIVE_TAB, tile.slot, 0],
        RepairAction::RepairedShares(tile) => [REPAIRED_SHARES, tile.slot, 0],
        RepairAction::RepairedConstraints(tile) => [REPAIRED_CONSTRAINTS, tile.slot, 0],
        RepairAction::CollapsedSplit(tile) => [COLLAPSED_SPLIT, tile.slot, 0],
        RepairAction::RemovedDuplicatePane { pane, tile } => {
            [REMOVED_DUPLICATE_PANE, tile.slot, pane]
        }
    }
}

// The action whose numbers these are.
// Kept: a `From<[u64; 3]>` of `RepairAction` stands in `rules` or nowhere, and `rules` holds plain types without logic.
pub fn action_of(code: [u64; 3]) -> RepairAction
    ensures { result ≡ action_from code }
{
    let tile = TileId { slot: code[1] };
    match code[0] {
        REMOVED_INVALID_NODE => RepairAction::RemovedInvalidNode(tile),
        REPAIRED_ACTIVE_TAB => RepairAction::RepairedActiveTab(tile),
        REPAIRED_SHARES => RepairAction::RepairedShares(tile),
        REPAIRED_CONSTRAINTS => RepairAction::RepairedConstraints(tile),
        COLLAPSED_SPLIT => RepairAction::CollapsedSplit(tile),
        _ => RepairAction::RemovedDuplicatePane {
            pane: code[2],
            tile,
        },
    }
}

// RepairSink::record of an action's three numbers, where `yes` says that there is something to record: the number of actions after it.
pub fn note_if(acts: &mut [[u64; 3]], n: usize, yes: bool, what: u64, tile: u64, pane: u64) -> usize
    requires { n < 1300 }
    ensures { (a : RepairAction) → action_code a ≡ what → (action_tile a).slot ≡ tile → action_pane a ≡ pane → Noted yes a acts.old n acts.new result }
{
    if !yes {
        return n;
    }
    if acts.len() != 1300 {
        return n;
    }
    if acts[..n].contains(&[what, tile, pane]) {
        return n;
    }
    acts[n] = [what, tile, pane];
    n + 1
}

// RepairSink::record of an action's three numbers
pub fn note(acts: &mut [[u64; 3]], n: usize, what: u64, tile: u64, pane: u64) -> usize
    requires { n < 1300 }
    ensures { (a : RepairAction) → action_code a ≡ what → (action_tile a).slot ≡ tile → action_pane a ≡ pane → Noted Bool.true a acts.old n acts.new result }
{
    note_if(acts, n, true, what, tile, pane)
}

// RepairSink::record, where `yes` says that there is something to record: the number of actions after it.
pub fn note_action_if(acts: &mut [[u64; 3]], n: usize, yes: bool, action: RepairAction) -> usize
    requires { n < 1300 }
    ensures { Noted yes action acts.old n acts.new result }
{
    let [what, tile, pane] = code_of(action);
    note_if(acts, n, yes, what, tile, pane)
}

// RepairSink::record
pub fn note_action(acts: &mut [[u64; 3]], n: usize, action: RepairAction) -> usize
    requires { n < 1300 }
    ensures { Noted Bool.true action acts.old n acts.new result }
{
    let [what, tile, pane] = code_of(action);
    note(acts, n, what, tile, pane)
}
