// vectors_solver: the stored answers of the solver (docs/VECTORS.md), put to the library and compared bit for bit.
#![tactic(auto)]

use answers::Told;
use rules::model::Reals;
use rules::solving::Solution;
use std::io;
use wire::Reader;

// Whether the lengths, as many as there are, are those that follow in the body, with the same bits.
fn same_lengths(body: &mut Reader, l: Reals) -> bool {
    let Some(xs) = l.at.get(..l.len) else {
        return false;
    };
    if body.number() != l.len as u64 {
        return false;
    }
    xs.iter().all(|x| wire::has_bits(*x, body.bits()))
}

// Whether the answer is the one that follows in the body: refusal, lengths and passes.
fn same_answer(body: &mut Reader, s: Solution) -> bool {
    body.told() == Told::from(s.answer)
        && same_lengths(body, s.lengths)
        && body.number() == s.passes
}

// One case: its total, shares and minima, and what the library answers.
fn same_case(b: &[u8]) -> bool {
    let mut body = Reader { rest: b };
    let total = body.real();
    let shares = body.reals();
    let minima = body.reals();
    same_answer(&mut body, solver::solve(total, shares, minima))
}

fn main(rt: HostRuntime) -> io::Result<()> {
    let seen = wire::input::replay(&mut rt.stdin(), same_case)?;
    println!(rt; "{} of {} solver answers agree", seen.agreed, seen.cases)
}
