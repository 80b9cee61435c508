// The public call: the Rust's apply and apply_inner.
// Kept: the four columns are four parameters (why: columns/src/lib.rt).
ghost use Rattle.std.specs.Prelude.{◌≡◌, true};
ghost use Rattle.rules.specs.Tree.{Arena, view};
ghost use Rattle.rules.specs.Sound.{sound};
ghost use Rattle.rules.specs.Operations as Rule;
ghost use Rattle.rules.specs.declared.refusal.Refusal.{Refusal};
ghost use Rattle.rules.specs.Refusals as Answers;
ghost use Rattle.columns.specs.Shown.{arena_from, Plain};
ghost use Rattle.docking.specs.Steps.{applied, Does, Ready, Comes};

use crate::finish;
use changing::{operations, reorder};
use columns::{pack, unpack};
use docking::{AppliedIn, Applying, Changed};
use repair::whole;
use rules::model::{TileId, TileTree};
use rules::operation::TileOp;
use rules::refusal::Refusal;
use settling::lone;

// apply_inner
fn apply_inner(
    root: u64,
    op: TileOp,
    heads: &mut [[u64; 8]; 64],
    ids: &mut [[u64; 16]; 64],
    shares: &mut [[f64; 16]; 64],
    minima: &mut [[f64; 16]; 64],
) -> Result<Option<Changed>, Refusal>
    requires { Ready root heads.old ids.old shares.old minima.old }
    ensures { Does root (λ (a : Arena). Rule.apply_inner a op) result heads.old ids.old shares.old minima.old heads.new ids.new shares.new minima.new }
{
    match op {
        TileOp::ActivatePane { pane } => {
            operations::activate_pane(root, pane, heads, ids, shares, minima)
        }
        TileOp::ClosePane { pane } => {
            let c = operations::close_pane(root, pane, heads, ids, shares, minima)?;
            Ok(Some(c))
        }
        TileOp::SplitPane {
            pane,
            axis,
            new_pane,
            placement,
            share,
        } => {
            let c = operations::split_pane(
                root, pane, axis, new_pane, placement, share, heads, ids, shares, minima,
            )?;
            Ok(Some(c))
        }
        TileOp::MovePane { pane, target } => {
            let c = operations::move_pane(root, pane, target, heads, ids, shares, minima)?;
            Ok(Some(c))
        }
        TileOp::ReorderTab { group, pane, index } => {
            reorder::reorder_tab(root, group, pane, index, heads, ids, shares, minima)
        }
    }
}

// apply of the arena that columns show, in place: any operation on any columns. A refusal may leave them half changed; where nothing changed they show the
// same tree.
pub fn apply_columns(
    root: u64,
    revision: u64,
    op: TileOp,
    heads: &mut [[u64; 8]; 64],
    ids: &mut [[u64; 16]; 64],
    shares: &mut [[f64; 16]; 64],
    minima: &mut [[f64; 16]; 64],
) -> Result<Option<AppliedIn>, Refusal>
    requires { Plain heads.old ids.old shares.old minima.old }
    ensures { Comes (arena_from root revision heads.old ids.old shares.old minima.old) (Rule.apply (arena_from root revision heads.old ids.old shares.old minima.old) op) result heads.new ids.new shares.new minima.new × (sound (arena_from root revision heads.old ids.old shares.old minima.old) ≡ true → Rule.apply_inner (arena_from root revision heads.old ids.old shares.old minima.old) op ≡ Rule.unchanged → result ≡ Ok None) }
{
    lone::root_row(ids, root);
    if !whole::sound_columns(root, heads, ids, shares, minima) {
        return Err(Refusal::NotSound);
    }
    let Some(to) = apply_inner(root, op, heads, ids, shares, minima)? else {
        return Ok(None);
    };
    let done = finish::change(revision, to, heads, ids, shares, minima)?;
    Ok(Some(done))
}

// apply: any operation on any tree. A refused or unchanged tree comes back as it was given, to the last place of its lists.
pub fn apply(t: TileTree, op: TileOp) -> Applying
    ensures { (applied result ≡ Rule.apply (view t) op) × ((e : Refusal) → result.answer ≡ Answers.Refused e → result.tree ≡ t) × (sound (view t) ≡ true → Rule.apply_inner (view t) op ≡ Rule.unchanged → result.tree ≡ t) }
{
    let given = t.slots;
    let top = t.root;
    let mut heads = [[0u64; 8]; 64];
    let mut ids = [[0u64; 16]; 64];
    let mut shares = [[0.0f64; 16]; 64];
    let mut minima = [[0.0f64; 16]; 64];
    unpack::unpack(given, &mut heads, &mut ids, &mut shares, &mut minima);
    let done = apply_columns(
        top.slot,
        t.revision,
        op,
        &mut heads,
        &mut ids,
        &mut shares,
        &mut minima,
    );
    let answer = finish::answer_of(done);
    let Some(next) = done.unwrap_or(None) else {
        return Applying { answer, tree: t };
    };
    let slots = pack::pack(&heads, &ids, &shares, &minima);
    let root = TileId { slot: next.root };
    let tree = TileTree {
        root,
        revision: next.revision,
        slots,
    };
    Applying { answer, tree }
}
