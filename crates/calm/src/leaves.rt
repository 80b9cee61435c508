// A pane tile and a group, read only.
ghost use Rattle.std.specs.Prelude.{◌∷◌, [], ◌+◌, ◌≤◌, ◌<◌, take, get_or};
ghost use Rattle.calm.specs.Reads.{Sights, Groups};

use sifting::panes;

// A pane, at its first sight.
pub fn calm_pane(seen: &mut [u64; 1024], n: usize, pane: u64) -> Result<usize, usize>
    requires { n < 1024 }
    ensures { Sights (pane ∷ []) seen.old n seen.new result }
{
    if panes::saw(seen, n, pane) {
        return Err(n);
    }
    let m = panes::see(seen, n, pane);
    Ok(m)
}

// A group's panes, each at its first sight.
pub fn calm_panes(
    seen: &mut [u64; 1024],
    n: usize,
    row: &[u64; 16],
    count: usize,
) -> Result<usize, usize>
    requires few { count ≤ 16 }
    requires room { n + 16 ≤ 1024 }
    ensures { Sights (take count row.now) seen.old n seen.new result }
{
    let mut m = n;
    for j in 0..count {
        m = calm_pane(seen, m, row[j])?;
    }
    Ok(m)
}

// A group whose head and panes these are: its active index is in range, and each pane is new.
pub fn calm_group(
    seen: &mut [u64; 1024],
    n: usize,
    h: [u64; 8],
    row: &[u64; 16],
) -> Result<usize, usize>
    requires few { get_or h 4 0 ≤ 16 }
    requires room { n + 16 ≤ 1024 }
    ensures { Groups h row.now seen.old n seen.new result }
{
    if h[4] <= h[3] {
        return Err(n);
    }
    calm_panes(seen, n, row, h[4] as usize)
}
