// Whether numbers name kinds, modes, axes, placements and operations.
ghost use Rattle.std.specs.Prelude.{◌≡◌, get_or};
ghost use Rattle.coding.specs.Lent.{code_ok, codes_ok, sides_ok, target_ok, op_ok};

// A head's kind is 0 to 3; a group's mode 0 to 4, a split's 0 or 1.
fn code_ok(h: [u64; 8]) -> bool
    ensures { result ≡ code_ok h }
{
    // Most slots are empty or hold a pane: of a match of all four the compiler makes a test that asks for these two last.
    if h[0] < 2 {
        return true;
    }
    match h[0] {
        2 => h[1] < 5,
        3 => h[1] < 2,
        _ => false,
    }
}

pub fn codes_ok(heads: &[[u64; 8]; 64]) -> bool
    ensures { result ≡ codes_ok heads.now }
{
    heads.iter().all(|h| code_ok(*h))
}

fn sides_ok(w: [u64; 8]) -> bool
    ensures { result ≡ sides_ok w }
{
    w[2] < 2 && w[3] < 2
}

fn target_ok(w: [u64; 8]) -> bool
    ensures { result ≡ target_ok (get_or w 5 0) w }
{
    match w[5] {
        0 => true,
        1 => sides_ok(w),
        2 => w[6] < 2,
        _ => false,
    }
}

// The words of an operation: what, pane, axis, placement, the new pane or the tile named, which target, whether an index is given, the index.
pub fn op_ok(words: &[u64; 8]) -> bool
    ensures { result ≡ op_ok words.now }
{
    let w = *words;
    match w[0] {
        0 | 1 | 4 => true,
        2 => sides_ok(w),
        3 => target_ok(w),
        _ => false,
    }
}
