// The covered work of the reader: a section found at a place of a plain slice. Nothing is copied: a section is a place and a count.
ghost use Rattle.std.specs.Prelude.{◌≡◌, ◌+◌, ◌*◌, ◌^◌, ◌<◌};
ghost use Rattle.reader.specs.Section.{SectionAt};

use crate::bytes::count;

// Where a section's entries start, and how many there are: eight bytes each.
#[derive(Clone, Copy)]
pub struct Section {
    pub start: usize,
    pub count: usize,
}

impl Section {
    // Where its last entry ends, and the next section begins.
    pub fn end(self) -> usize
        requires { self.start + 8 * self.count < 2 ^ 64 }
        ensures { result ≡ self.start + 8 * self.count }
    {
        self.start + 8 * self.count
    }
}

// A 32-bit count, then as many entries of eight bytes; or the bytes end within it.
pub fn find_section(b: &[u8], p: usize) -> Option<Section>
    ensures { SectionAt b.now p result }
{
    let left = b.len().checked_sub(p)?.checked_sub(4)?;
    let count = count(b, p) as usize;
    if left < 8 * count {
        return None;
    }
    Some(Section {
        start: p + 4,
        count,
    })
}
