// What holds of days written to a book of any shape, stated in specs/ and proved in proofs/. Where a theorem goes, the
// function here is not proved.
#![tactic(auto)]

ghost use Rattle.years.specs.Laws.{Laws};

// There is nothing to do: its contract is that every statement has its theorem.
fn kept()
    ensures { Laws }
{}
