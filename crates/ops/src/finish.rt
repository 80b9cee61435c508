// What follows an operation: refusals 11 and 3 after repair, the revision, and the repair itself (the Rust's apply, 225 to 238).
// Kept: the four columns are four parameters (why: columns/src/lib.rt).
ghost use Rattle.std.specs.Prelude.{◌≡◌, List, ℕ};
ghost use Rattle.rules.specs.Tree.{Arena};
ghost use Rattle.rules.specs.Operations.{Step};
ghost use Rattle.rules.specs.Operations as Rule;
ghost use Rattle.columns.specs.Columns.{nodes_from};
ghost use Rattle.columns.specs.Pack.{Even, first_of};
ghost use Rattle.nodes.specs.Parts.{first_slot};
ghost use Rattle.docking.specs.Steps.{always, answered, Makes, Comes};

use docking::{AppliedIn, Changed};
use rules::model::TileId;
use rules::refusal::{Answer, Refusal};
use settling::settle;

// What apply of columns answers, as a tree by value and the calls for C tell it.
pub fn answer_of(done: Result<Option<AppliedIn>, Refusal>) -> Answer
    ensures { result ≡ answered done }
{
    match done {
        Ok(_) => Ok(()),
        Err(e) => Err(e),
    }
}

// A spare slot as settle takes it.
// Kept: 64 for none is the rules' word `first_of`, in which `Settles`, the clause of `settling::settle::settle`, takes the spare slot.
fn number_of(spare: Option<TileId>) -> u64
    ensures { (free : List ℕ) → spare ≡ first_slot free → result ≡ first_of free }
{
    match spare {
        Some(t) => t.slot,
        None => 64,
    }
}

// Something changed: the slots under the new root, repaired, with the next revision. A fresh root goes into the spare slot.
pub fn change(
    revision: u64,
    to: Changed,
    heads: &mut [[u64; 8]; 64],
    ids: &mut [[u64; 16]; 64],
    shares: &mut [[f64; 16]; 64],
    minima: &mut [[f64; 16]; 64],
) -> Result<AppliedIn, Refusal>
    requires { Even heads.old ids.old shares.old minima.old }
    ensures { (a : Arena) (s : Step) → a.revision ≡ revision → Makes a s to.root to.spare (nodes_from heads.old ids.old shares.old minima.old) → Comes a (Rule.finish a s) (always result) heads.new ids.new shares.new minima.new }
{
    if revision == 18446744073709551615 {
        return Err(Refusal::RevisionExhausted);
    }
    // Nobody reads the actions of an operation's repair: a list that has not 1,300 places is silent, as the Rust's sink without a list.
    let mut acts = [[0u64; 3]; 1];
    let spare = number_of(to.spare);
    let done = settle::settle(to.root, spare, heads, ids, shares, minima, &mut acts)?;
    Ok(AppliedIn {
        root: done.root,
        revision: revision + 1,
    })
}
