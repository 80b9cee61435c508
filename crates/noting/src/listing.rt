// The report: the actions as the Rust has them.
ghost use Rattle.std.specs.Prelude.{◌≡◌, List, [], ◌≤◌};
ghost use Rattle.columns.specs.Columns.{Lists};
ghost use Rattle.columns.specs.Pack.{reported};

use crate::actions;
use columns::Report;
use rules::model::RepairAction;

// The first n actions.
pub fn report(acts: &[[u64; 3]; 1300], n: usize) -> Report
    requires { n ≤ 1300 }
    ensures { ((l : List RepairAction) → Lists acts.now n l → reported result ≡ l) × (result.len ≡ n) }
{
    let mut at = [actions::action_of([0; 3]); 1300];
    for i in 0..n {
        at[i] = actions::action_of(acts[i]);
    }
    Report { at, len: n }
}

pub fn no_report() -> Report
    ensures { (reported result ≡ []) × (result.len ≡ 0) }
{
    Report {
        at: [actions::action_of([0; 3]); 1300],
        len: 0,
    }
}
