// A head's mode, read as what it names.
ghost use Rattle.std.specs.Prelude.{◌≡◌};
ghost use Rattle.columns.specs.Columns.{bar_from, axis_from};

use rules::model::{Axis, TabBarPlacement};

// The placement whose number stands in a group's head.
// Kept: a `From<u64>` of `TabBarPlacement` stands in `rules` or nowhere, and this reading by `bar_from` is the columns' own.
pub fn bar_of(mode: u64) -> TabBarPlacement
    ensures { result ≡ bar_from mode }
{
    match mode {
        0 => TabBarPlacement::Hidden,
        1 => TabBarPlacement::Top,
        2 => TabBarPlacement::Bottom,
        3 => TabBarPlacement::Left,
        _ => TabBarPlacement::Right,
    }
}

// The axis whose number stands in a split's head.
// Kept: a `From<u64>` of `Axis` stands in `rules` or nowhere, and this reading by `axis_from` is the columns' own.
pub fn axis_of(mode: u64) -> Axis
    ensures { result ≡ axis_from mode }
{
    match mode {
        0 => Axis::Horizontal,
        _ => Axis::Vertical,
    }
}
