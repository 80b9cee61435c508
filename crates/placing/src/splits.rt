// A split's lengths and rectangles: the arithmetic of the Rust's layout_split.
ghost use Rattle.std.specs.Prelude.{◌≡◌, ◌-◌, ◌≤◌, length, get_or, take};
ghost use Rattle.rules.specs.Tree.{reals};
ghost use Rattle.rules.specs.Frame as Rule;
ghost use Rattle.columns.specs.Columns.{Slim};

use rules::frame::{LayoutInput, Rect};
use rules::model::{Axis, Reals};

// A child's rectangle or a handle's: from `at` on along the axis, `size` long.
pub fn along_rect(axis: Axis, rect: Rect, at: f64, size: f64) -> Rect
    ensures { result ≡ Rule.along_rect axis rect at size }
{
    match axis {
        Axis::Horizontal => Rect {
            x0: at,
            y0: rect.y0,
            x1: at + size,
            y1: rect.y1,
        },
        Axis::Vertical => Rect {
            x0: rect.x0,
            y0: at,
            x1: rect.x1,
            y1: at + size,
        },
    }
}

// Where the cursor starts.
pub fn along_start(axis: Axis, rect: Rect) -> f64
    ensures { result ≡ Rule.along_start axis rect }
{
    match axis {
        Axis::Horizontal => rect.x0,
        Axis::Vertical => rect.y0,
    }
}

// The Rust's child_total: what the handles leave, of which one stands between each two children.
fn child_total(axis: Axis, count: usize, rect: Rect, input: LayoutInput) -> f64
    requires { count ≤ 16 }
    ensures { result ≡ Rule.child_total axis count rect input }
{
    let major = bars::rects::major_length(rect, axis);
    let handle_total = input.split_handle_thickness * number::whole(count.saturating_sub(1));
    number::larger(major - handle_total, 0.0)
}

// The solved lengths of a split's children; its head, shares and minima are these.
pub fn split_lengths(
    head: [u64; 8],
    shares: [f64; 16],
    minima: [f64; 16],
    axis: Axis,
    rect: Rect,
    input: LayoutInput,
) -> Reals
    requires { Slim head }
    ensures { (reals result ≡ (Rule.split_lengths axis (get_or head 4 0) (take (get_or head 5 0) shares) (take (get_or head 6 0) minima) rect input).lengths) × (length (reals result) ≡ get_or head 4 0) }
{
    let count = head[4] as usize;
    let total = child_total(axis, count, rect, input);
    let given = Reals {
        at: shares,
        len: head[5] as usize,
    };
    let by = util::shares::repaired_shares(count, given);
    let own = Reals {
        at: minima,
        len: head[6] as usize,
    };
    let default_min_major = bars::rects::major_size(input.min_pane_size, axis);
    let least = util::minima::split_min_major(count, own, default_min_major);
    solver::solve_lengths_with_min(total, by, least).lengths
}
