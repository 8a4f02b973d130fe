// x: the exemption test asked by itself, and the line it prints.
use crate::line::print_clause;
use crate::stop::Stop;
use exemptions::clause::clause_of;
use rules::text::Text;
use wire::read::get8;

// The rulebook, the edition, the contract's type, the kind, the instruction, the purpose. There is no edition but 0:
// any other is a code that no text has, and the clause of those is 1.
fn clause_in(one: &[u8]) -> u8 {
    if get8(one, 2) != 0 {
        return 1;
    }
    let text = Text {
        rulebook: get8(one, 1),
    };
    clause_of(text, get8(one, 3), get8(one, 4), get8(one, 5), get8(one, 6))
}

pub(crate) fn ask(rt: &HostRuntime, one: &[u8]) -> Result<(), Stop> {
    print_clause(rt, clause_in(one))?;
    Ok(())
}
