// The children in the solver's work, four lists side by side: shares and minima, which are only read, lengths so far, and which are fixed at their minimum.
// Kept: lengths and `fixed` are lent one by one, since what a struct of two `&mut` leaves in them is not known afterwards (a caller's goal `returns` stays open).
ghost use Rattle.std.specs.Prelude.{◌≡◌, ◌≤◌, length, take};
ghost use Rattle.rules.specs.Solver as Rules;
ghost use Rattle.loops.specs.Columns.{kids_shown, Worked, Tallied, Turned};

use rules::solving::Kid;

// The shares and minima of up to 16 children, and how many there are.
#[derive(Clone, Copy)]
pub struct Wants<'a> {
    pub shares: &'a [f64; 16],
    pub minima: &'a [f64; 16],
    pub count: usize,
    pub ghost few: { count ≤ 16 },
    pub ghost shares_long: { length shares.now ≡ 16 },
    pub ghost minima_long: { length minima.now ≡ 16 },
}

// The locals of the Rust's outer loop: `changed`, `fixed_total` and `flexible_share_total`.
#[derive(Clone, Copy)]
pub struct Held {
    pub changed: bool,
    pub held: f64,
    pub flexible: f64,
}

// The body of the Rust's first inner loop: a child below its minimum is fixed there. The child, and those locals, after its turn.
#[tactic(auto, unfolding(rules::specs::Solver::pin))]
fn hold(k: Kid, so_far: Held) -> (Kid, Held)
    ensures { Turned k so_far result.0 result.1 }
{
    if k.fixed {
        let held = so_far.held + k.size;
        return (k, Held { held, ..so_far });
    }
    if k.size < k.minimum {
        let kid = Kid {
            size: k.minimum,
            fixed: true,
            ..k
        };
        let run = Held {
            changed: true,
            held: so_far.held + k.minimum,
            ..so_far
        };
        return (kid, run);
    }
    let flexible = so_far.flexible + k.share;
    (k, Held { flexible, ..so_far })
}

// The body of the Rust's second inner loop: a flexible child's part of what remains.
#[tactic(auto, unfolding(rules::specs::Solver::spread))]
fn spread(k: Kid, room: f64, flex: f64) -> f64
    ensures { Rules.resized k result k.fixed ≡ Rules.spread room flex k }
{
    if k.fixed {
        k.size
    } else {
        room * (k.share / flex)
    }
}

// The Rust's first inner loop.
pub fn hold_all(kids: Wants, sizes: &mut [f64; 16], fixed: &mut [bool; 16]) -> Held
    ensures worked { Worked Rules.pin kids.entry.count kids.entry.shares.now kids.entry.minima.now sizes.old fixed.old sizes.new fixed.new }
    ensures tallied { Tallied (take kids.entry.count (kids_shown kids.entry.shares.now kids.entry.minima.now sizes.old fixed.old)) result }
{
    let mut run = Held {
        changed: false,
        held: 0.0,
        flexible: 0.0,
    };
    for i in 0..kids.count {
        let k = Kid {
            share: kids.shares[i],
            minimum: kids.minima[i],
            size: sizes[i],
            fixed: fixed[i],
        };
        let (kid, next) = hold(k, run);
        sizes[i] = kid.size;
        fixed[i] = kid.fixed;
        run = next;
    }
    run
}

// The Rust's second inner loop.
pub fn spread_all(kids: Wants, sizes: &mut [f64; 16], fixed: &[bool; 16], room: f64, flex: f64)
    ensures { Worked (Rules.spread room flex) kids.entry.count kids.entry.shares.now kids.entry.minima.now sizes.old fixed.now sizes.new fixed.now }
{
    for i in 0..kids.count {
        let k = Kid {
            share: kids.shares[i],
            minimum: kids.minima[i],
            size: sizes[i],
            fixed: fixed[i],
        };
        sizes[i] = spread(k, room, flex);
    }
}
