// The seven lists of a frame, compared with those that follow in a body, bit for bit.
ghost use Rattle.std.specs.Prelude.{◌≡◌, ◌≤◌, true, IsSome};

use frame::Layout;
use rules::frame::{
    FrameItemId, PaneFrame, Rect, SplitChildFrame, SplitHandleFrame, TabBarFrame, TabFrame,
};
use wire::Reader;

fn same_real(body: &mut Reader, x: f64) -> bool {
    wire::has_bits(x, body.bits())
}

fn same_rect(body: &mut Reader, r: Rect) -> bool {
    same_real(body, r.x0) && same_real(body, r.y0) && same_real(body, r.x1) && same_real(body, r.y1)
}

fn same_pane(body: &mut Reader, f: &PaneFrame) -> bool {
    body.number() == f.pane && body.number() == f.tile.slot && same_rect(body, f.rect)
}

fn same_bar(body: &mut Reader, f: &TabBarFrame) -> bool {
    body.number() == f.group.slot
        && same_rect(body, f.rect)
        && body.number() == f.placement as u64
        && body.number() == f.active_pane
}

fn same_tab(body: &mut Reader, f: &TabFrame) -> bool {
    body.number() == f.group.slot
        && body.number() == f.pane
        && same_rect(body, f.rect)
        && body.number() == f.index as u64
        && body.number() == u64::from(f.active)
}

fn same_child(body: &mut Reader, f: &SplitChildFrame) -> bool {
    body.number() == f.split.slot
        && body.number() == f.child.slot
        && body.number() == f.index as u64
        && same_rect(body, f.rect)
}

fn same_handle(body: &mut Reader, f: &SplitHandleFrame) -> bool {
    body.number() == f.split.slot
        && body.number() == f.handle as u64
        && body.number() == f.axis as u64
        && same_rect(body, f.rect)
}

fn same_number(body: &mut Reader, n: &u64) -> bool {
    body.number() == *n
}

fn same_painted(body: &mut Reader, p: &FrameItemId) -> bool {
    let (kind, first, second) = match *p {
        FrameItemId::Pane(pane) => (0, pane, 0),
        FrameItemId::TabBar(group) => (1, group.slot, 0),
        FrameItemId::Tab { group, pane } => (2, group.slot, pane),
        FrameItemId::SplitHandle { split, handle } => (3, split.slot, handle as u64),
    };
    body.number() == kind && body.number() == first && body.number() == second
}

// Whether a list, as long as it is, is the one that follows in the body. One that is longer than its places agrees with nothing.
fn same_list<T, F: Fn(&mut Reader, &T) -> bool>(
    body: &mut Reader,
    list: Option<&[T]>,
    same: F,
) -> bool
    requires { F.IsAlwaysCallable same }
    ensures { result ≡ true → IsSome list.entry }
{
    let Some(list) = list else {
        return false;
    };
    if body.number() != list.len() as u64 {
        return false;
    }
    for x in list {
        if !same(body, x) {
            return false;
        }
    }
    true
}

// Whether the lists are those that follow in the body.
pub fn same_frame(body: &mut Reader, r: Layout) -> bool
    ensures panes { result ≡ true → r.panes.len ≤ 64 }
    ensures tab_bars { result ≡ true → r.tab_bars.len ≤ 64 }
    ensures tabs { result ≡ true → r.tabs.len ≤ 1024 }
    ensures split_children { result ≡ true → r.split_children.len ≤ 64 }
    ensures split_handles { result ≡ true → r.split_handles.len ≤ 64 }
    ensures focus_order { result ≡ true → r.focus_order.len ≤ 1024 }
    ensures paint_order { result ≡ true → r.paint_order.len ≤ 1216 }
{
    same_list(body, r.panes.at.get(..r.panes.len), same_pane)
        && same_list(body, r.tab_bars.at.get(..r.tab_bars.len), same_bar)
        && same_list(body, r.tabs.at.get(..r.tabs.len), same_tab)
        && same_list(
            body,
            r.split_children.at.get(..r.split_children.len),
            same_child,
        )
        && same_list(
            body,
            r.split_handles.at.get(..r.split_handles.len),
            same_handle,
        )
        && same_list(body, r.focus_order.at.get(..r.focus_order.len), same_number)
        && same_list(
            body,
            r.paint_order.at.get(..r.paint_order.len),
            same_painted,
        )
}
