// The stored answers as they come on a reader: eight bytes, how many cases there are, then each case's length in bytes and its body.
// An error of the reader is handed on. It leaves the reader further on in the bytes that it had, and none of those changed.
ghost use Rattle.std.specs.Prelude.{◌≡◌, ◌<◌, ◌≤◌, length, take, IfOk};
ghost use Rattle.std.specs.Io.KnownBytes.{Consumes, IsAtEnd};
ghost use Rattle.wire.specs.Passing.{EndsWithBuffer, Passes};

use std::io;
use std::io::Read;

// Reads until the buffer is full or the input ends: how many bytes it put at the buffer's start.
fn read_full<R: Read>(input: &mut R, buf: &mut [u8]) -> io::Result<usize>
    ensures within { IfOk result (λ n. n ≤ length buf.new) }
    ensures filled { IfOk result (λ n. Consumes (R.remaining input.old) (R.remaining input.new) (take n buf.new)) }
    ensures short { IfOk result (λ n. n < length buf.new → IsAtEnd (R.remaining input.new)) }
    ensures passes { Passes (R.remaining input.old) (R.remaining input.new) }
{
    let mut done = 0usize;
    // Kept: a read gives any number of bytes, so no count of turns would be plainer.
    while done < buf.len() {
        let n = input.read(&mut buf[done..])?;
        if n == 0 {
            break;
        }
        done += n;
    }
    Ok(done)
}

// One byte, 0 where the input has ended.
fn byte_in<R: Read>(input: &mut R) -> io::Result<u8>
    ensures { Passes (R.remaining input.old) (R.remaining input.new) }
{
    let mut one = [0u8; 1];
    read_full(input, &mut one)?;
    Ok(one[0])
}

// A number, as wire::Reader reads it from a slice. No contract can say what a file holds, so this one gives only its range: below 2^32, as every count of the files is.
pub fn number_in<R: Read>(input: &mut R) -> io::Result<u64>
    ensures range { IfOk result (λ n. n ≤ 4294967295) }
    ensures passes { Passes (R.remaining input.old) (R.remaining input.new) }
{
    let mut value = 0u64;
    for k in 0..10u32 {
        let x = byte_in(input)?;
        value |= u64::from(x % 128) << (7 * k);
        if x < 128 {
            return Ok(value % 4294967296);
        }
    }
    Ok(value % 4294967296)
}

// The magic word, passed over: how many bytes of it there were.
pub fn skip_magic<R: Read>(input: &mut R) -> io::Result<usize>
    ensures within { IfOk result (λ n. n ≤ 8) }
    ensures passes { Passes (R.remaining input.old) (R.remaining input.new) }
{
    let mut word = [0u8; 8];
    read_full(input, &mut word)
}

// The next case's body at the start of a buffer: its length, or less where the input ends; 0 for one that is too long.
// After an error the buffer may hold the part of a body that came.
pub fn body_in<R: Read>(input: &mut R, buf: &mut [u8]) -> io::Result<usize>
    ensures within { IfOk result (λ n. n ≤ length buf.new) }
    ensures kept { length buf.new ≡ length buf.old }
    ensures body { IfOk result (λ n. EndsWithBuffer (R.remaining input.old) (R.remaining input.new) buf.new n) }
    ensures passes { Passes (R.remaining input.old) (R.remaining input.new) }
{
    let n = number_in(input)?;
    if (buf.len() as u64) < n {
        return Ok(0);
    }
    let len = n as usize;
    read_full(input, &mut buf[..len])
}

// How many of the next cases pass a test of their bodies.
fn count_cases<R: Read, F: Fn(&[u8]) -> bool>(input: &mut R, cases: u64, same: F) -> io::Result<u64>
    requires { F.IsAlwaysCallable same }
    ensures within { IfOk result (λ n. n ≤ cases) }
    ensures passes { Passes (R.remaining input.old) (R.remaining input.new) }
{
    let mut space = [0u8; 65536];
    let mut agreed = 0u64;
    for _i in 0..cases {
        let n = body_in(input, &mut space)?;
        agreed += u64::from(same(&space[..n]));
    }
    Ok(agreed)
}

// How many of a file's cases agree, and how many there are.
#[derive(Clone, Copy)]
pub struct Tally {
    pub agreed: u64,
    pub cases: u64,
}

// A whole file: the magic word, the number of cases, and each case's body put to a test.
pub fn replay<R: Read, F: Fn(&[u8]) -> bool>(input: &mut R, same: F) -> io::Result<Tally>
    requires { F.IsAlwaysCallable same }
    ensures within { IfOk result (λ t. t.agreed ≤ t.cases) }
    ensures passes { Passes (R.remaining input.old) (R.remaining input.new) }
{
    skip_magic(input)?;
    let cases = number_in(input)?;
    let agreed = count_cases(input, cases, same)?;
    Ok(Tally { agreed, cases })
}
