// The stored runs of operations (docs/VECTORS.md), put to the library one after another and compared bit for bit.
#![tactic(auto)]

use answers::Told;
use std::io;
use wire::Reader;

mod cases;
mod marked;
mod operation;
mod readings;

// One case: a tree and a run of operations, each on the tree that the one before it left, with the refusal and the tree after. The last one ends the body.
fn same_case(b: &[u8]) -> bool {
    let mut body = Reader { rest: b };
    let mut tree = body.tree();
    for _ in 0..body.number() {
        let done = ops::whole::apply(tree, operation::operation(&mut body));
        let told = body.told();
        let wanted = body.tree_after(tree);
        if told != Told::from(done.answer) || !compare::same::same_tree(done.tree, wanted) {
            return false;
        }
        tree = done.tree;
    }
    body.is_at_end()
}

fn main(rt: HostRuntime) -> io::Result<()> {
    let seen = wire::input::replay(&mut rt.stdin(), same_case)?;
    println!(rt;
        "{} of {} runs of operations agree",
        seen.agreed, seen.cases
    )?;
    let known = marked::agreed() + readings::agreed();
    println!(rt; "{known} of 22 cases made by hand agree")
}
