// Heads as the calls on columns read them: a lent head may hold any number in a place that its kind doesn't use, and so a length that is none.
ghost use Rattle.std.specs.Prelude.{◌≡◌, map};
ghost use Rattle.coding.specs.Lent.{tidied};
ghost use Rattle.crossing.specs.Parts.{tidy_heads};

use columns::unpack;

fn tidy_head(h: [u64; 8]) -> [u64; 8]
    ensures { result ≡ tidied h }
{
    match h[0] {
        0 => [0; 8],
        1 => [1, 0, h[2], 0, 0, 0, 0, 0],
        2 => [2, h[1], 0, h[3], h[4], 0, 0, 0],
        _ => h,
    }
}

// A loop and no `map`: an array's `map` moves each entry into a second array, and that takes many times the instructions.
fn tidy_all(heads: &mut [[u64; 8]; 64])
    ensures { heads.new ≡ map tidied heads.old }
{
    for i in 0..64 {
        heads[i] = tidy_head(heads[i]);
    }
}

// The heads themselves, made tidy. Where no length is over 16, as in all that a call leaves, nothing is written.
pub fn tidy_lent(heads: &mut [[u64; 8]; 64])
    ensures { heads.new ≡ tidy_heads heads.old }
{
    if !unpack::heads_over(heads) {
        return;
    }
    tidy_all(heads)
}

// The same of a copy, for calls that only read.
pub fn tidy(heads: &[[u64; 8]; 64]) -> [[u64; 8]; 64]
    ensures { result ≡ tidy_heads heads.now }
{
    let mut a = *heads;
    tidy_lent(&mut a);
    a
}
