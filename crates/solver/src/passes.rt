// The outer loop.
ghost use Rattle.std.specs.Prelude.{◌≡◌, take, false};
ghost use Rattle.loops.specs.Columns.{kids_shown, unfixed};
ghost use Rattle.solver.specs.Lent.{Ran};
ghost use Rattle.solver.specs.Loop.{all_fixed};

use loops::kids::{self, Wants};

// The Rust's `loop`, on the lengths by the shares; how many runs there were. Every run but the last fixes one child more, so that n runs are
// enough. Each run is counted: specs/Loop.antt shows that none begins with every child fixed.
pub fn run(total: f64, kids: Wants, sizes: &mut [f64; 16]) -> u64
    requires { all_fixed (take kids.count (kids_shown kids.shares.now kids.minima.now sizes.old unfixed)) ≡ false }
    ensures { Ran total kids.entry.count kids.entry.shares.now kids.entry.minima.now sizes.old sizes.new result }
{
    let mut fixed = [false; 16];
    for earlier in 0..kids.count {
        let turn = kids::hold_all(kids, sizes, &mut fixed);
        if !turn.changed || turn.flexible <= 0.0 {
            return earlier as u64 + 1;
        }
        let room = number::larger(total - turn.held, 0.0);
        kids::spread_all(kids, sizes, &fixed, room, turn.flexible);
    }
    kids.count as u64
}
