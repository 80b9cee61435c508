// The table's four sections, found in the bytes by the reader. Nothing is copied: a section is a place and a count.
ghost use Rattle.table.specs.Sections.{SectionsAre};

use reader::cursor::Section;
use reader::section_at;

// Where the entries of each section stand.
#[derive(Clone, Copy)]
pub struct Places {
    pub rows: Section,
    pub panes: Section,
    pub shares: Section,
    pub minima: Section,
}

// Rows, panes, shares, minima, and nothing after them.
pub fn find_sections(b: &[u8]) -> Option<Places>
    ensures { SectionsAre b.now result }
{
    let rows = section_at(b, 0)?;
    let panes = section_at(b, rows.end())?;
    let shares = section_at(b, panes.end())?;
    let minima = section_at(b, shares.end())?;
    if minima.end() != b.len() {
        return None;
    }
    Some(Places {
        rows,
        panes,
        shares,
        minima,
    })
}
