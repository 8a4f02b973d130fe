// Which orders do not count, and by which clause: 0 not exempt, 1 by instruction, 2 by purpose, 3 by both.
ghost use Rattle.std.specs.Prelude.{◌≡◌};
ghost use Rattle.exemptions.specs.Exemption.{clause, clauses};

use crate::lookup::{Codes, KIND_STEP, entry_of, is_listed, place_of};
use crate::sheet::sheet;
use rules::text::Text;

// An order's clauses, for self-trade, frequent and large cancels. Numbers and no enum: for every code `clause_of`
// promises the number that `clause` of specs/Exemption gives, and the demands and the sheet speak of that number.
#[derive(Debug, Clone, Copy, Default, PartialEq, Eq, Hash)]
pub struct Clauses {
    pub own: u8,
    pub frequent: u8,
    pub over: u8,
}

// The clause by which an order on a contract of a type is exempt for a kind of offence.
#[tactic(auto, unfolding(crate::specs::Sheet::entry_of))]
pub fn clause_of(text: Text, contract_type: u8, kind: u8, instruction: u8, purpose: u8) -> u8
    ensures { result ≡ clause text contract_type kind instruction purpose }
{
    entry_of(Codes {
        text,
        sort: contract_type,
        kind,
        instruction,
        purpose,
    })
}

// The clauses for all kinds, with the table handed out once: the entries of one order stand a kind's step apart.
#[tactic(auto, using(crate::proofs::SheetLaws::looking))]
pub fn clauses_of(text: Text, contract_type: u8, instruction: u8, purpose: u8) -> Clauses
    ensures { result ≡ clauses text contract_type instruction purpose }
{
    let codes = Codes {
        text,
        sort: contract_type,
        kind: 1,
        instruction,
        purpose,
    };
    if !is_listed(codes) {
        return Clauses {
            own: 1,
            frequent: 1,
            over: 1,
        };
    }
    let table = sheet();
    let at = place_of(codes);
    Clauses {
        own: table[at],
        frequent: table[at + KIND_STEP],
        over: table[at + 2 * KIND_STEP],
    }
}
