// The tab bar and its tabs.
ghost use Rattle.std.specs.Prelude.{◌≡◌, ◌≤◌, ◌<◌};
ghost use Rattle.std.specs.Float.{binary64};
ghost use Rattle.std.specs.Float.Ieee.{div};
ghost use Rattle.rules.specs.Numbers.{whole};
ghost use Rattle.rules.specs.Tabs as Rule;
ghost use Rattle.bars.specs.Bars.{barred_of};

use crate::rects;
use rules::frame::Rect;
use rules::model::TabBarPlacement;

// The pair that split_tab_bar answers: the bar, and what it leaves to the pane.
#[derive(Clone, Copy)]
pub struct Barred {
    pub bar: Rect,
    pub pane: Rect,
}

// split_tab_bar. A bar takes at most the rectangle: the Rust's `thickness.min(rect.height())`.
#[tactic(auto, unfolding(rules::specs::Tabs::split_tab_bar))]
pub fn split_tab_bar(rect: Rect, placement: TabBarPlacement, thickness: f64) -> Barred
    ensures { barred_of result ≡ Rule.split_tab_bar rect placement thickness }
{
    let high = number::smaller(thickness, rects::height(rect));
    let wide = number::smaller(thickness, rects::width(rect));
    match placement {
        TabBarPlacement::Hidden => Barred {
            bar: Rect {
                x0: 0.0,
                y0: 0.0,
                x1: 0.0,
                y1: 0.0,
            },
            pane: rect,
        },
        TabBarPlacement::Top => {
            let edge = rect.y0 + high;
            Barred {
                bar: Rect { y1: edge, ..rect },
                pane: Rect { y0: edge, ..rect },
            }
        }
        TabBarPlacement::Bottom => {
            let edge = rect.y1 - high;
            Barred {
                bar: Rect { y0: edge, ..rect },
                pane: Rect { y1: edge, ..rect },
            }
        }
        TabBarPlacement::Left => {
            let edge = rect.x0 + wide;
            Barred {
                bar: Rect { x1: edge, ..rect },
                pane: Rect { x0: edge, ..rect },
            }
        }
        TabBarPlacement::Right => {
            let edge = rect.x1 - wide;
            Barred {
                bar: Rect { x0: edge, ..rect },
                pane: Rect { x1: edge, ..rect },
            }
        }
    }
}

// Where a tab begins and ends, along the bar: tabs of one size, but the last ends where the bar does, whatever rounding did.
fn tab_ends(lo: f64, hi: f64, length: f64, count: usize, index: usize) -> (f64, f64)
    requires few { count ≤ 16 }
    requires inside { index < count }
    ensures start { result.0 ≡ Rule.tab_start lo (div binary64 length (whole count)) index }
    ensures end { result.1 ≡ Rule.tab_end lo hi (div binary64 length (whole count)) count index }
{
    let each = length / number::whole(count);
    let start = lo + each * number::whole(index);
    if index + 1 == count {
        return (start, hi);
    }
    (start, start + each)
}

// One entry of tab_rects: layout makes them one after another, and no list of them is kept.
pub fn tab_rect(rect: Rect, placement: TabBarPlacement, count: usize, index: usize) -> Rect
    requires { (count ≤ 16) × (index < count) }
    ensures { result ≡ Rule.tab_rect placement rect count index }
{
    match placement {
        TabBarPlacement::Hidden | TabBarPlacement::Top | TabBarPlacement::Bottom => {
            let (x0, x1) = tab_ends(rect.x0, rect.x1, rects::width(rect), count, index);
            Rect { x0, x1, ..rect }
        }
        TabBarPlacement::Left | TabBarPlacement::Right => {
            let (y0, y1) = tab_ends(rect.y0, rect.y1, rects::height(rect), count, index);
            Rect { y0, y1, ..rect }
        }
    }
}
