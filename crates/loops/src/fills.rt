// Lent arrays whose first n places are filled. What is handed back as lengths has zeros after them.
ghost use Rattle.std.specs.Prelude.{◌≤◌, take, map, replicate};
ghost use Rattle.rules.specs.Solver.{part};
ghost use Rattle.loops.specs.Padded.{Padded};

// The same length n times: the Rust's `vec![x; count]`.
pub fn even(n: usize, x: f64, out: &mut [f64; 16])
    requires { n ≤ 16 }
    ensures { Padded n (replicate n x) out.new }
{
    *out = [0.0; 16];
    out[..n].fill(x);
}

// The Rust's `xs.iter().map(|x| total * (*x / whole)).collect()`.
pub fn parts(xs: &[f64; 16], n: usize, total: f64, whole: f64, lengths: &mut [f64; 16])
    requires { n ≤ 16 }
    ensures { Padded n (map (λ x. part total x whole) (take n xs.now)) lengths.new }
{
    *lengths = [0.0; 16];
    for i in 0..n {
        lengths[i] = total * (xs[i] / whole);
    }
}
