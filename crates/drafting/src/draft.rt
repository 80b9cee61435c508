// A spec's tree before its repair, in columns: the Rust's `from_spec` (tree.rs) up to `normalize`, with document 01's refusals in their order.
// Kept: the four columns are four parameters (why: columns/src/lib.rt).
ghost use Rattle.std.specs.Prelude.{◌≡◌};
ghost use Rattle.rules.specs.Tree.{arena, tile};
ghost use Rattle.rules.specs.Spec.{built_nodes};
ghost use Rattle.table.specs.Rows.{table_of};
ghost use Rattle.build.specs.Slots.{Bare};
ghost use Rattle.columns.specs.Shown.{arena_from, Plain};
ghost use Rattle.drafting.specs.Draft.{Passed, BuiltIn, draft_of};

use build::push::push_spec;
use build::slots::slots_into;
use checks::entry::too_wide;
use checks::validate::check_rows;
use rules::model::TileTree;
use rules::refusal::{Answer, Refusal};
use table::preorder::read_table;
use table::sections::Places;

// Kept: a refused spec has a tree too, of which `Drafted`, the clause of `spec::whole::from_spec`, speaks.
#[derive(Clone, Copy)]
pub struct Draft {
    pub answer: Answer,
    pub tree: TileTree,
}

// A table that passed every check, built: slot = row number.
fn built_into(
    b: &[u8],
    t: Places,
    heads: &mut [[u64; 8]; 64],
    ids: &mut [[u64; 16]; 64],
    shares: &mut [[f64; 16]; 64],
    minima: &mut [[f64; 16]; 64],
)
    requires passed { Passed b.now t }
    requires bare { Bare heads.old ids.old shares.old minima.old }
    ensures shown { arena_from 0 0 heads.new ids.new shares.new minima.new ≡ arena (tile 0) 0 (built_nodes (table_of b.now t)) }
    ensures plain { Plain heads.new ids.new shares.new minima.new }
{
    let mut kids = [0u64; 1024];
    let end = push_spec(b, t, &mut kids, 0);
    slots_into(b, t, &kids, end, heads, ids, shares, minima)
}

// 1, then 2 (over 64 rows), then 3 (a row over 16 children or panes), then the Rust's checks in preorder.
pub fn build_into(
    b: &[u8],
    heads: &mut [[u64; 8]; 64],
    ids: &mut [[u64; 16]; 64],
    shares: &mut [[f64; 16]; 64],
    minima: &mut [[f64; 16]; 64],
) -> Answer
    requires { Bare heads.old ids.old shares.old minima.old }
    ensures { BuiltIn (draft_of b.now) result 0 heads.new ids.new shares.new minima.new }
{
    let t = read_table(b).ok_or(Refusal::BadTable)?;
    if 64 < t.rows.count {
        return Err(Refusal::ArenaFull);
    }
    if too_wide(b, t) {
        return Err(Refusal::TooWide);
    }
    check_rows(b, t)?;
    built_into(b, t, heads, ids, shares, minima);
    Ok(())
}
