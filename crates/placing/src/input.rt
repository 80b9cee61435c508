// The input of a layout: the Rust's `debug_assert!`s on it, with document 01's limits.
ghost use Rattle.std.specs.Prelude.{◌≡◌};
ghost use Rattle.rules.specs.Frame as Rule;

use rules::frame::{LayoutInput, Rect, Size};

// From -2^20 to 2^20, which a NaN is not.
fn coordinate_ok(x: f64) -> bool
    ensures { result ≡ Rule.coordinate_ok x }
{
    -1048576.0 <= x && x <= 1048576.0
}

// From 0 to 2^20.
// Kept: beside `coordinate_ok`. Each is one line; one test of both bounds would be called eight times with the bound that the two names say.
fn thickness_ok(x: f64) -> bool
    ensures { result ≡ Rule.thickness_ok x }
{
    0.0 <= x && x <= 1048576.0
}

// Four good coordinates, and no edges crossed.
fn bounds_ok(r: Rect) -> bool
    ensures { result ≡ Rule.bounds_ok r }
{
    coordinate_ok(r.x0)
        && coordinate_ok(r.y0)
        && coordinate_ok(r.x1)
        && coordinate_ok(r.y1)
        && r.x0 <= r.x1
        && r.y0 <= r.y1
}

fn size_ok(s: Size) -> bool
    ensures { result ≡ Rule.size_ok s }
{
    thickness_ok(s.width) && thickness_ok(s.height)
}

// Whether an input is within document 01's limits.
#[tactic(auto, unfolding(rules::specs::Frame::input_ok))]
pub fn input_ok(i: LayoutInput) -> bool
    ensures { result ≡ Rule.input_ok i }
{
    bounds_ok(i.bounds)
        && thickness_ok(i.tab_bar_thickness)
        && thickness_ok(i.split_handle_thickness)
        && size_ok(i.min_pane_size)
}

fn plus_rect(r: Rect) -> Rect
    ensures { result ≡ Rule.plus_rect r }
{
    Rect {
        x0: number::plus_zero(r.x0),
        y0: number::plus_zero(r.y0),
        x1: number::plus_zero(r.x1),
        y1: number::plus_zero(r.y1),
    }
}

fn plus_size(s: Size) -> Size
    ensures { result ≡ Rule.plus_size s }
{
    Size {
        width: number::plus_zero(s.width),
        height: number::plus_zero(s.height),
    }
}

// Minus zero read as zero, everywhere.
#[tactic(auto, unfolding(rules::specs::Frame::plus_input))]
pub fn plus_input(i: LayoutInput) -> LayoutInput
    ensures { result ≡ Rule.plus_input i }
{
    LayoutInput {
        bounds: plus_rect(i.bounds),
        tab_bar_thickness: number::plus_zero(i.tab_bar_thickness),
        split_handle_thickness: number::plus_zero(i.split_handle_thickness),
        min_pane_size: plus_size(i.min_pane_size),
    }
}
