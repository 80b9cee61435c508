// Reading the stored answers that docs/VECTORS.md describes, from what is left of a body. Past the end everything reads as zero.
#![tactic(auto)]

pub mod input;
pub mod tree;

ghost use Rattle.std.specs.Prelude.{◌≡◌, ◌==◌, ◌≤◌, length};
ghost use Rattle.wire.specs.Bits.{bits_are};

use answers::Told;
use rules::model::{Ids, Reals, Sixteen, TileId, Tiles};

// What is left to read of a body.
#[derive(Clone, Copy)]
pub struct Reader<'a> {
    pub rest: &'a [u8],
}

// What stands in a list of 16.
trait Entry: Copy {
    const NONE: Self;

    fn read(from: &mut Reader) -> Self
        ensures { length from.new.rest.now ≤ length from.old.rest.now };
}

impl Entry for u64 {
    const NONE: u64 = 0;

    fn read(from: &mut Reader) -> u64 {
        from.number()
    }
}

impl Entry for TileId {
    const NONE: TileId = TileId { slot: 0 };

    fn read(from: &mut Reader) -> TileId {
        from.tile()
    }
}

impl Entry for f64 {
    const NONE: f64 = 0.0;

    fn read(from: &mut Reader) -> f64 {
        from.real()
    }
}

impl<'a> Reader<'a> {
    pub fn is_at_end(&self) -> bool
        ensures { result ≡ (length self.now.rest.now == 0) }
    {
        self.rest.is_empty()
    }

    fn byte(&mut self) -> Option<u8>
        ensures { length self.new.rest.now ≤ length self.old.rest.now }
    {
        let (x, rest) = self.rest.split_first()?;
        self.rest = rest;
        Some(*x)
    }

    // Seven bits a byte, low ones first; the high bit says that another byte follows.
    pub fn number(&mut self) -> u64
        ensures { length self.new.rest.now ≤ length self.old.rest.now }
    {
        let mut value = 0u64;
        for k in 0..10u32 {
            let Some(x) = self.byte() else {
                return value;
            };
            value |= u64::from(x % 128) << (7 * k);
            if x < 128 {
                return value;
            }
        }
        value
    }

    // The bits of a real: eight bytes.
    pub fn bits(&mut self) -> u64
        ensures { length self.new.rest.now ≤ length self.old.rest.now }
    {
        if self.rest.len() < 8 {
            self.rest = &[];
            return 0;
        }
        let bits = number::word(self.rest, 0);
        self.rest = &self.rest[8..];
        bits
    }

    pub fn real(&mut self) -> f64
        ensures { length self.new.rest.now ≤ length self.old.rest.now }
    {
        number::decode(self.bits())
    }

    pub fn tile(&mut self) -> TileId
        ensures { length self.new.rest.now ≤ length self.old.rest.now }
    {
        TileId {
            slot: self.number(),
        }
    }

    // A refusal's number and two details.
    pub fn told(&mut self) -> Told
        ensures { length self.new.rest.now ≤ length self.old.rest.now }
    {
        Told {
            number: self.number(),
            first: self.number(),
            second: self.number(),
        }
    }

    // The length as it stands there, of which at most 16 entries follow.
    fn list<T: Entry>(&mut self) -> Sixteen<T>
        ensures { length self.new.rest.now ≤ length self.old.rest.now }
    {
        let len = self.number() as usize;
        let mut at = [T::NONE; 16];
        for i in 0..len.min(16) {
            at[i] = T::read(self);
        }
        Sixteen { at, len }
    }

    pub fn ids(&mut self) -> Ids
        ensures { length self.new.rest.now ≤ length self.old.rest.now }
    {
        self.list()
    }

    pub fn tiles(&mut self) -> Tiles
        ensures { length self.new.rest.now ≤ length self.old.rest.now }
    {
        self.list()
    }

    pub fn reals(&mut self) -> Reals
        ensures { length self.new.rest.now ≤ length self.old.rest.now }
    {
        self.list()
    }
}

// Whether a real has these bits; of a NaN only that it is one.
pub fn has_bits(x: f64, bits: u64) -> bool
    ensures { result ≡ bits_are x bits }
{
    if x == x {
        return f64::to_bits(x) == bits;
    }
    bits == 0x7ff8_0000_0000_0000
}
