// A repair's actions, into the list that is lent.
ghost use Rattle.std.specs.Prelude.{List, ◌≤◌};
ghost use Rattle.rules.specs.declared.model.RepairAction.{RepairAction};
ghost use Rattle.columns.specs.Columns.{Lists};
ghost use Rattle.crossing.specs.Parts.{Writes};

// Writes the first n over the front. What stands past them is as it was.
pub fn write(list: &[[u64; 3]; 1300], n: usize, acts: &mut [[u64; 3]; 1300])
    requires { n ≤ 1300 }
    ensures { (l : List RepairAction) → Lists list.now n l → Writes l acts.old acts.new n }
{
    acts[..n].copy_from_slice(&list[..n]);
}
