// The table reader: a spec's bytes, as they are lent, and a place in them, kept together. It is taken apart at once, and the work is that of `cursor`,
// whose parameters are a plain slice and a number.
#![tactic(auto)]

pub mod bytes;
pub mod cursor;

ghost use Rattle.std.specs.Prelude.{◌≡◌};
ghost use Rattle.reader.specs.Section.{SectionAt};

use crate::cursor::{Section, find_section};

#[derive(Clone, Copy)]
pub struct Reader<'a> {
    pub bytes: &'a [u8],
    pub at: usize,
}

// Kept: functions, by the names and with the arguments that docs/DECISIONS.md has, and not methods.
// At the first byte.
pub fn new<'a>(bytes: &'a [u8]) -> Reader<'a>
    ensures bytes { result.bytes ≡ bytes.entry }
    ensures place { result.at ≡ 0 }
{
    Reader { bytes, at: 0 }
}

// The same bytes, at another place.
pub fn moved<'a>(r: Reader<'a>, at: usize) -> Reader<'a>
    ensures bytes { result.bytes ≡ r.entry.bytes }
    ensures place { result.at ≡ at }
{
    Reader { bytes: r.bytes, at }
}

// The section that stands at its place.
pub fn section<'a>(r: Reader<'a>) -> Option<Section>
    ensures { SectionAt r.entry.bytes.now r.entry.at result }
{
    find_section(r.bytes, r.at)
}

// The section at a place of a plain slice, by a reader that is taken apart at once.
pub fn section_at(b: &[u8], at: usize) -> Option<Section>
    ensures { SectionAt b.now at result }
{
    section(moved(new(b), at))
}
