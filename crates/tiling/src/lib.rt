// Dimbovala's public calls, with what each promises: the Rust's lib.rs. None has a precondition: each answers, or refuses with a number from document 01.
// Each `ensures` equates what comes back with the rule of the call's name in crates/rules/specs, refusals included, for all inputs.
#![tactic(auto)]

ghost use Rattle.std.specs.Prelude.{◌≡◌, true};
ghost use Rattle.rules.specs.Tree.{view};
ghost use Rattle.rules.specs.Sound.{sound};
ghost use Rattle.rules.specs.Spec.{from_spec};
ghost use Rattle.rules.specs.Repair as Repairs;
ghost use Rattle.rules.specs.Operations as Operations;
ghost use Rattle.rules.specs.Frame as Frames;
ghost use Rattle.rules.specs.Solver.{view_solution};
ghost use Rattle.rules.specs.Solver as Solves;
ghost use Rattle.rules.specs.declared.refusal.Refusal.{Refusal};
ghost use Rattle.rules.specs.Refusals as Answers;
ghost use Rattle.drafting.specs.Draft.{Drafted};
ghost use Rattle.repair.specs.Whole.{repaired};
ghost use Rattle.docking.specs.Steps.{applied};
ghost use Rattle.layout.specs.Whole.{LaysOut};
ghost use Rattle.frame.specs.Frames.{view_layout};
ghost use Rattle.solver.specs.Call.{Clear};

use docking::Applying;
use drafting::draft::Draft;
use frame::Layout;
use layout::LaidOut;
use repair::Repairing;
use rules::frame::LayoutInput;
use rules::model::{Reals, TileTree};
use rules::operation::TileOp;
use rules::solving::Solution;

// A tree from a spec table (document 01, 'Spec bytes'). A refusal gives the lone empty root.
pub fn from_spec(bytes: &[u8]) -> Draft
    ensures { Drafted result.answer result.tree (from_spec bytes.now) }
{
    spec::whole::from_spec(bytes)
}

// Any arena made sound, and what was done to it. A refused one comes back as it was given.
pub fn repair(tree: TileTree) -> Repairing
    ensures { (repaired result ≡ Repairs.repair (view tree)) × ((e : Refusal) → result.answer ≡ Answers.Refused e → result.tree ≡ tree) }
{
    repair::whole::repair(tree)
}

// Whether repair would leave the arena as it is, or it is the lone empty root.
pub fn is_sound(tree: TileTree) -> bool
    ensures { result ≡ sound (view tree) }
{
    repair::whole::is_sound(tree)
}

// One change, whole or not at all. A refused or unchanged tree comes back as it was given.
pub fn apply(tree: TileTree, op: TileOp) -> Applying
    ensures { (applied result ≡ Operations.apply (view tree) op) × ((e : Refusal) → result.answer ≡ Answers.Refused e → result.tree ≡ tree) × (sound (view tree) ≡ true → Operations.apply_inner (view tree) op ≡ Operations.unchanged → result.tree ≡ tree) }
{
    ops::whole::apply(tree, op)
}

// The frame of a tree: the seven lists. A refusal has empty lists.
pub fn layout(tree: TileTree, input: LayoutInput) -> Layout
    ensures { view_layout result ≡ Frames.layout (view tree) input }
{
    frame::whole::layout(tree, input)
}

// The same as one stream of items and their rectangles, in arrays that are lent. A refusal leaves them as they were.
pub fn layout_into(
    tree: TileTree,
    input: LayoutInput,
    items: &mut [[u64; 5]; 2304],
    rects: &mut [[f64; 4]; 2304],
) -> LaidOut
    ensures { LaysOut (view tree) input items.old rects.old items.new rects.new result }
{
    layout::whole::layout_into(tree, input, items, rects)
}

// The lengths of a split's children, and the solver's passes.
pub fn solve(total: f64, shares: Reals, minima: Reals) -> Solution
    ensures result_value { view_solution result ≡ Solves.solve total shares minima }
    ensures clear { Clear result.lengths }
{
    solver::solve(total, shares, minima)
}
