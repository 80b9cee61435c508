// vectors_spec: the stored specs (docs/VECTORS.md), put to the library and compared bit for bit.
#![tactic(auto)]

use answers::Told;
use drafting::draft::Draft;
use std::io;
use wire::Reader;

// Whether what the library answers is what follows in the body, refusal and tree, and it ends after them.
fn same_answer(body: &mut Reader, d: Draft) -> bool {
    body.told() == Told::from(d.answer)
        && compare::same::same_tree(d.tree, body.tree())
        && body.is_at_end()
}

// One case: a table, no longer than the body, and what the library makes of it.
fn same_case(b: &[u8]) -> bool {
    let mut body = Reader { rest: b };
    let n = body.number() as usize;
    let (table, rest) = body.rest.split_at(n.min(body.rest.len()));
    same_answer(&mut Reader { rest }, spec::whole::from_spec(table))
}

fn main(rt: HostRuntime) -> io::Result<()> {
    let seen = wire::input::replay(&mut rt.stdin(), same_case)?;
    println!(rt; "{} of {} specs agree", seen.agreed, seen.cases)
}
