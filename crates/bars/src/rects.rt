// Rectangles: kurbo's Rect, and a size or a rectangle along an axis.
ghost use Rattle.std.specs.Prelude.{◌≡◌};
ghost use Rattle.rules.specs.Tabs as Rule;

use rules::frame::{Rect, Size};
use rules::model::Axis;

// Rect::width
pub fn width(rect: Rect) -> f64
    ensures { result ≡ Rule.width rect }
{
    rect.x1 - rect.x0
}

// Rect::height
pub fn height(rect: Rect) -> f64
    ensures { result ≡ Rule.height rect }
{
    rect.y1 - rect.y0
}

// major_size
pub fn major_size(size: Size, axis: Axis) -> f64
    ensures { result ≡ Rule.major_size size axis }
{
    match axis {
        Axis::Horizontal => size.width,
        Axis::Vertical => size.height,
    }
}

// major_length
pub fn major_length(rect: Rect, axis: Axis) -> f64
    ensures { result ≡ Rule.major_length rect axis }
{
    match axis {
        Axis::Horizontal => width(rect),
        Axis::Vertical => height(rect),
    }
}
