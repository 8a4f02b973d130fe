// The exemptions of the exchanges' texts: the table that is looked up, and the clause by which an order is spared. A
// code that the rulebook does not have is exempt.
#![tactic(auto)]

pub mod clause;
pub mod lookup;
pub mod sheet;
