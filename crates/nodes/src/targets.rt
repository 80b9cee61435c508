// Whether a dock target is good: the Rust's validate_target.
// Kept: the four columns are four parameters (why: columns/src/lib.rt).
ghost use Rattle.std.specs.Prelude.{◌≡◌};
ghost use Rattle.rules.specs.Tree.{view_slot};
ghost use Rattle.rules.specs.Target.{existing, a_group, validate_target};
ghost use Rattle.columns.specs.Columns.{nodes_from};
ghost use Rattle.columns.specs.Pack.{Even};
ghost use Rattle.nodes.specs.Parts.{checked_of};

use crate::slots;
use rules::model::{Kind, Slot};
use rules::operation::DockTarget;
use rules::refusal::Refusal;
use util::shares;

// A tile beside which something goes.
fn is_there(s: Slot) -> Result<(), Refusal>
    ensures { checked_of result ≡ existing (view_slot s) }
{
    if columns::slots::is_empty(s) {
        return Err(Refusal::InvalidTileId);
    }
    Ok(())
}

// A tile into which something goes.
fn is_group(s: Slot) -> Result<(), Refusal>
    ensures { checked_of result ≡ a_group (view_slot s) }
{
    let k = s.kind;
    match k {
        Kind::Empty => Err(Refusal::InvalidTileId),
        Kind::Tabs(_) => Ok(()),
        _ => Err(Refusal::InvalidTarget),
    }
}

// validate_target: the ratio before the tile.
pub fn validate_target(
    heads: &[[u64; 8]; 64],
    ids: &[[u64; 16]; 64],
    shares: &[[f64; 16]; 64],
    minima: &[[f64; 16]; 64],
    target: DockTarget,
) -> Result<(), Refusal>
    requires { Even heads.now ids.now shares.now minima.now }
    ensures { checked_of result ≡ validate_target (nodes_from heads.now ids.now shares.now minima.now) target }
{
    match target {
        DockTarget::Root => Ok(()),
        DockTarget::Split {
            tile,
            axis: _,
            placement: _,
            ratio,
        } => {
            if shares::is_valid_split_fraction(ratio) {
                let s = slots::get_node(heads, ids, shares, minima, tile);
                return is_there(s);
            }
            Err(Refusal::InvalidTarget)
        }
        DockTarget::TabInto { group, index: _ } => {
            let s = slots::get_node(heads, ids, shares, minima, group);
            is_group(s)
        }
    }
}
