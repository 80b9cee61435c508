// vectors_layout: the stored layouts (docs/VECTORS.md), put to the library and compared bit for bit.
#![tactic(auto)]

ghost use Rattle.std.specs.Prelude.{◌≤◌};

use answers::Told;
use frame::Layout;
use rules::frame::{LayoutInput, Rect, Size};
use rules::model::TileTree;
use std::io;
use wire::Reader;

mod frame_lists;

fn rect(body: &mut Reader) -> Rect {
    Rect {
        x0: body.real(),
        y0: body.real(),
        x1: body.real(),
        y1: body.real(),
    }
}

// The outer rectangle, then handle, tab bar, minimum width and minimum height.
fn input(body: &mut Reader) -> LayoutInput {
    LayoutInput {
        bounds: rect(body),
        split_handle_thickness: body.real(),
        tab_bar_thickness: body.real(),
        min_pane_size: Size {
            width: body.real(),
            height: body.real(),
        },
    }
}

// A length, where it is one.
fn size(n: usize) -> usize
    ensures { result ≤ 4096 }
{
    n.min(4096)
}

// How many entries the stream had from which these lists were sorted out: the paint order names again what the others have.
fn entries(r: Layout) -> usize {
    size(r.panes.len)
        + size(r.tab_bars.len)
        + size(r.tabs.len)
        + size(r.split_children.len)
        + size(r.split_handles.len)
        + size(r.focus_order.len)
}

// Whether the stream over lent arrays has as many entries as the lists that are sorted out of it.
fn same_stream(t: TileTree, input: LayoutInput, r: Layout) -> bool {
    let mut items = [[7; 5]; 2304];
    let mut rects = [[7.0; 4]; 2304];
    layout::whole::layout_into(t, input, &mut items, &mut rects).len == entries(r)
}

// One case: a tree, an input, and the frame that the library makes of them.
fn same_case(b: &[u8]) -> bool {
    let mut body = Reader { rest: b };
    let t = body.tree();
    let given = input(&mut body);
    let r = frame::whole::layout(t, given);
    body.told() == Told::from(r.answer)
        && same_stream(t, given, r)
        && frame_lists::same_frame(&mut body, r)
        && body.is_at_end()
}

fn main(rt: HostRuntime) -> io::Result<()> {
    let seen = wire::input::replay(&mut rt.stdin(), same_case)?;
    println!(rt; "{} of {} layouts agree", seen.agreed, seen.cases)
}
