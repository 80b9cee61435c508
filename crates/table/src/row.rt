// One row of a table: eight bytes, a kind, a mode and three counts. The Rust's TileSpec, without what stands under it.
ghost use Rattle.std.specs.Prelude.{◌≡◌, ◌+◌, ◌^◌, ◌≤◌, ◌<◌, length};
ghost use Rattle.rules.specs.Table.{row_by, panes_used, shares_used, minima_used, children_used, bar_of, axis_of};
ghost use Rattle.rules.specs.Spec.{wide_row};
ghost use Rattle.table.specs.Row.{row_is, read_is, bar_is, axis_is, ReadAt};
ghost use Rattle.table.specs.Taken.{taken_with};

use reader::bytes::{byte, pair};
use rules::model::{Axis, TabBarPlacement};

// TileSpec::Pane, TileSpec::Tabs and TileSpec::Split, with the number of entries that each takes off the other sections.
#[derive(Clone, Copy)]
pub enum TableRow {
    Pane,
    Tabs {
        placement: TabBarPlacement,
        count: usize,
        active: usize,
    },
    Split {
        axis: Axis,
        count: usize,
        shares: usize,
        minima: usize,
    },
}

// Kept: a `TryFrom<u64>` of `TabBarPlacement` or `Axis` stands in `rules` or nowhere, and `rules` holds plain types without logic.
fn bar_of(mode: u64) -> Option<TabBarPlacement>
    ensures { bar_is result ≡ bar_of mode }
{
    match mode {
        0 => Some(TabBarPlacement::Hidden),
        1 => Some(TabBarPlacement::Top),
        2 => Some(TabBarPlacement::Bottom),
        3 => Some(TabBarPlacement::Left),
        4 => Some(TabBarPlacement::Right),
        _ => None,
    }
}

fn axis_of(mode: u64) -> Option<Axis>
    ensures { axis_is result ≡ axis_of mode }
{
    match mode {
        0 => Some(Axis::Horizontal),
        1 => Some(Axis::Vertical),
        _ => None,
    }
}

// Pane: mode 0, count 1, extra 0, minima 0, and nothing else.
fn pane_row(mode: u64, count: u64, extra: u64, minima: u64) -> Option<TableRow>
    ensures { read_is result ≡ row_by 0 mode count extra minima }
{
    (mode == 0 && count == 1 && extra == 0 && minima == 0).then_some(TableRow::Pane)
}

// Tabs: the mode is the bar's placement, the extra the active index; no minima.
fn tabs_row(mode: u64, count: u64, extra: u64, minima: u64) -> Option<TableRow>
    ensures { read_is result ≡ row_by 1 mode count extra minima }
{
    if minima != 0 {
        return None;
    }
    let placement = bar_of(mode)?;
    Some(TableRow::Tabs {
        placement,
        count: count as usize,
        active: extra as usize,
    })
}

// Split: the mode is the axis, the extra the number of shares.
fn split_row(mode: u64, count: u64, extra: u64, minima: u64) -> Option<TableRow>
    ensures { read_is result ≡ row_by 2 mode count extra minima }
{
    let axis = axis_of(mode)?;
    Some(TableRow::Split {
        axis,
        count: count as usize,
        shares: extra as usize,
        minima: minima as usize,
    })
}

fn row_by(kind: u64, mode: u64, count: u64, extra: u64, minima: u64) -> Option<TableRow>
    ensures { read_is result ≡ row_by kind mode count extra minima }
{
    match kind {
        0 => pane_row(mode, count, extra, minima),
        1 => tabs_row(mode, count, extra, minima),
        2 => split_row(mode, count, extra, minima),
        _ => None,
    }
}

// The row whose eight bytes stand at a place.
pub fn row_at(b: &[u8], at: usize) -> Option<TableRow>
    requires { at + 8 ≤ length b.now }
    ensures { ReadAt b.now at result }
{
    let kind = byte(b, at);
    let mode = byte(b, at + 1);
    let count = pair(b, at + 2);
    let extra = pair(b, at + 4);
    let minima = pair(b, at + 6);
    row_by(kind, mode, count, extra, minima)
}

// How many panes, shares and minima some rows take off the other sections.
#[derive(Clone, Copy)]
pub struct Taken {
    pub panes: usize,
    pub shares: usize,
    pub minima: usize,
}

impl Taken {
    // None are taken before the first row.
    pub const NONE: Taken = Taken {
        panes: 0,
        shares: 0,
        minima: 0,
    };

    // What is taken past one more row.
    pub fn with(self, row: TableRow) -> Taken
        requires panes { self.panes + panes_used (row_is row) < 2 ^ 64 }
        requires shares { self.shares + shares_used (row_is row) < 2 ^ 64 }
        requires minima { self.minima + minima_used (row_is row) < 2 ^ 64 }
        ensures { result ≡ taken_with self (row_is row) }
    {
        match row {
            TableRow::Pane => Taken {
                panes: self.panes + 1,
                ..self
            },
            TableRow::Tabs { count, .. } => Taken {
                panes: self.panes + count,
                ..self
            },
            TableRow::Split { shares, minima, .. } => Taken {
                shares: self.shares + shares,
                minima: self.minima + minima,
                ..self
            },
        }
    }
}

// How many rows stand directly under it.
pub fn children_used(r: TableRow) -> usize
    ensures { result ≡ children_used (row_is r) }
{
    match r {
        TableRow::Split { count, .. } => count,
        _ => 0,
    }
}

// Over 16 children or panes.
pub fn is_wide(r: TableRow) -> bool
    ensures { result ≡ wide_row (row_is r) }
{
    match r {
        TableRow::Pane => false,
        TableRow::Tabs { count, .. } | TableRow::Split { count, .. } => 16 < count,
    }
}
