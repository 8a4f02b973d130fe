// What was asked for, stated in specs/ and proved in proofs/. Where a theorem goes, the function here is not proved.
#![tactic(auto)]

ghost use Rattle.demands.specs.Promised.{Promised};

// There is nothing to do: its contract is that every statement has its theorem.
fn promised()
    ensures { Promised }
{}
