// The entries of a table that was read: rows, panes, shares and minima, each by its number.
ghost use Rattle.std.specs.Prelude.{◌≡◌, ◌<◌, get_or};
ghost use Rattle.rules.specs.Table.{pane_row};
ghost use Rattle.rules.specs.Numbers.{zero-f};
ghost use Rattle.rules.specs.Lists.{any_of};
ghost use Rattle.rules.specs.Spec.{wide_row};
ghost use Rattle.table.specs.Row.{row_is};
ghost use Rattle.reader.specs.Section.{Held};
ghost use Rattle.table.specs.Sections.{Placed};
ghost use Rattle.table.specs.Rows.{rows_at, panes_at, reals_at};

use reader::cursor::Section;
use table::row::{TableRow, is_wide, row_at};
use table::sections::Places;

// The i-th row. Of a table that was read each is one, so that what is said where there is none does not matter.
pub fn known_row(b: &[u8], t: Places, i: usize) -> TableRow
    requires placed { Placed b.now t }
    requires inside { i < t.rows.count }
    ensures { row_is result ≡ get_or (rows_at b.now t) i pane_row }
{
    row_at(b, t.rows.start + 8 * i).unwrap_or(TableRow::Pane)
}

pub fn pane_at(b: &[u8], t: Places, i: usize) -> u64
    requires placed { Placed b.now t }
    requires inside { i < t.panes.count }
    ensures { result ≡ get_or (panes_at b.now t) i 0 }
{
    number::word(b, t.panes.start + 8 * i)
}

// The i-th of a section's reals, shares or minima.
pub fn real_at(b: &[u8], reals: Section, i: usize) -> f64
    requires held { Held b.now reals }
    requires inside { i < reals.count }
    ensures { result ≡ get_or (reals_at b.now reals) i zero-f }
{
    number::decode(number::word(b, reals.start + 8 * i))
}

// A row of over 16 children or panes: document 01's refusal 3.
pub fn too_wide(b: &[u8], t: Places) -> bool
    requires { Placed b.now t }
    ensures { result ≡ any_of wide_row (rows_at b.now t) }
{
    for i in 0..t.rows.count {
        if is_wide(known_row(b, t, i)) {
            return true;
        }
    }
    false
}
