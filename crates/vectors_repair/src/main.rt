// vectors_repair: the stored repairs (docs/VECTORS.md), put to the library and compared bit for bit.
#![tactic(auto)]

ghost use Rattle.std.specs.Prelude.{◌≡◌, ◌+◌};
ghost use Rattle.rules.specs.Repair.{action_code, action_pane, action_tile};

use answers::Told;
use columns::Report;
use repair::Repairing;
use rules::model::{RepairAction, TileId, TileTree};
use std::io;
use wire::Reader;

// An action as the stored answers have it: its kind, the tile and the pane.
#[derive(Clone, Copy, PartialEq, Eq, Debug)]
struct Step {
    kind: u64,
    tile: u64,
    pane: u64,
}

// An action that names no pane.
fn on_tile(kind: u64, tile: TileId) -> Step
    ensures { (result.kind ≡ kind) × (result.tile ≡ tile.slot) × (result.pane ≡ 0) }
{
    Step {
        kind,
        tile: tile.slot,
        pane: 0,
    }
}

// Kept: a function that is called in one place, with its contract; a `From` would say no more.
fn of_action(a: RepairAction) -> Step
    ensures { (result.kind ≡ action_code a + 1) × (result.tile ≡ (action_tile a).slot) × (result.pane ≡ action_pane a) }
{
    match a {
        RepairAction::RemovedInvalidNode(tile) => on_tile(1, tile),
        RepairAction::RepairedActiveTab(tile) => on_tile(2, tile),
        RepairAction::RepairedShares(tile) => on_tile(3, tile),
        RepairAction::RepairedConstraints(tile) => on_tile(4, tile),
        RepairAction::CollapsedSplit(tile) => on_tile(5, tile),
        RepairAction::RemovedDuplicatePane { pane, tile } => Step {
            kind: 6,
            tile: tile.slot,
            pane,
        },
    }
}

fn step_in(body: &mut Reader) -> Step {
    Step {
        kind: body.number(),
        tile: body.number(),
        pane: body.number(),
    }
}

// Whether the actions, as many as there are, are those that follow in the body, and it ends after them.
fn same_actions(body: &mut Reader, r: Report) -> bool {
    let Some(list) = r.at.get(..r.len) else {
        return false;
    };
    if body.number() != r.len as u64 {
        return false;
    }
    list.iter().all(|a| step_in(body) == of_action(*a)) && body.is_at_end()
}

// Whether what the library answers is what follows in the body: refusal, tree and actions.
fn same_answer(body: &mut Reader, before: TileTree, r: Repairing) -> bool {
    body.told() == Told::from(r.answer)
        && compare::same::same_tree(r.tree, body.tree_after(before))
        && same_actions(body, r.actions)
}

// One case: an arena, whether the library finds it sound, and what it makes of it.
fn same_case(b: &[u8]) -> bool {
    let mut body = Reader { rest: b };
    let t = body.tree();
    body.number() == u64::from(repair::whole::is_sound(t))
        && same_answer(&mut body, t, repair::whole::repair(t))
}

fn main(rt: HostRuntime) -> io::Result<()> {
    let seen = wire::input::replay(&mut rt.stdin(), same_case)?;
    println!(rt; "{} of {} repairs agree", seen.agreed, seen.cases)
}
