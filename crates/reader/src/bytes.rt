// Numbers of two and four bytes at a place, the least byte first, with their bounds: counts are added up later.
ghost use Rattle.std.specs.Prelude.{◌≡◌, ◌+◌, ◌≤◌, ◌<◌, length, get_or};
ghost use Rattle.rules.specs.Table.{number_at};

pub fn byte(b: &[u8], at: usize) -> u64
    requires { at + 1 ≤ length b.now }
    ensures value { result ≡ get_or b.now at 0 }
    ensures small { result < 256 }
{
    u64::from(b[at])
}

pub fn pair(b: &[u8], at: usize) -> u64
    requires { at + 2 ≤ length b.now }
    ensures value { result ≡ number_at 2 at b.now }
    ensures small { result < 65536 }
{
    u64::from(u16::from_le_bytes([b[at], b[at + 1]]))
}

pub fn count(b: &[u8], at: usize) -> u64
    requires { at + 4 ≤ length b.now }
    ensures value { result ≡ number_at 4 at b.now }
    ensures small { result < 4294967296 }
{
    u64::from(u32::from_le_bytes([b[at], b[at + 1], b[at + 2], b[at + 3]]))
}
