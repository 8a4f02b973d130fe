// Whether the tables lent with a call are still those of the open day.
ghost use Rattle.std.specs.Prelude.{◌≡◌};
ghost use Rattle.daylog.specs.Changed.{tables_changed};

use crate::header::{Header, check_log, header_of};

// Taking and ending ask this of the tables that they are handed.
#[tactic(auto, using(wire::proofs::RefusalLaws::check_fails), unfolding(
// a header is another by any of its fields, as the `!=` that is derived has it
crate::specs::Changed::tables_changed, crate::specs::Changed::same_header))]
pub fn tables_changed(head: Header, log: &[u8]) -> bool
    ensures { result ≡ tables_changed head log.now }
{
    if head != header_of(log) {
        return true;
    }
    check_log(log).is_err()
}
