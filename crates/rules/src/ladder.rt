// Families, rungs and sanctions: asked by number, as each function here promises an answer for every number, and told
// by number, 16 or 0 for none, as `family`, `rung` and `sanction` of specs/Ladders and the bytes of a finding are.
ghost use Rattle.std.specs.Prelude.{◌≡◌};
ghost use Rattle.rules.specs.Choices.{by_three};
ghost use Rattle.rules.specs.Ladders.{family, rung, limit_sanction, sanction};

use crate::text::{Text, is_rulebook};

// The family of a contract, 0 to 15; 16 where a rulebook has no such contract.
#[tactic(auto, using(wire::proofs::ChoiceLaws::chain), unfolding(crate::specs::Ladders::family))]
pub fn family_of(text: Text, contract_type: u8, product: u8) -> u8
    ensures { result ≡ family text contract_type product }
{
    if text.rulebook == 1 {
        return by_three(contract_type, 0, 1, 16, 16);
    }
    if (text.rulebook == 2) & (contract_type == 1) & (product <= 15) {
        return product;
    }
    16
}

// The rung of a total, 1 to 3; 0 where there was no offence.
#[tactic(auto, using(wire::proofs::ChoiceLaws::chain), unfolding(crate::specs::Ladders::rung))]
pub fn rung_of(total: u32) -> u8
    ensures { result ≡ rung total }
{
    if total == 0 {
        return 0;
    }
    ((total - 1) % 3 + 1) as u8
}

#[tactic(auto, using(wire::proofs::ChoiceLaws::chain), unfolding(crate::specs::Choices::by_three))]
fn by_three(x: u8, first: u8, second: u8, third: u8, other: u8) -> u8
    ensures { result ≡ by_three x first second third other }
{
    match x {
        1 => first,
        2 => second,
        3 => third,
        _ => other,
    }
}

// The sanction for a position over the limit.
#[tactic(auto, unfolding(crate::specs::Ladders::limit_sanction))]
fn limit_sanction_of(rung: u8) -> u8
    ensures { result ≡ limit_sanction rung }
{
    by_three(rung, 2, 7, 8, 0)
}

// The sanction for an offence of a kind on a rung, for a group with or without a member among the day's accounts; 0
// for no sanction.
#[tactic(auto, using(wire::proofs::ChoiceLaws::chain), unfolding(crate::specs::Ladders::sanction))]
pub fn sanction_of(rulebook: u8, kind: u8, rung: u8, member: bool) -> u8
    ensures { result ≡ sanction rulebook kind rung member }
{
    let known = is_rulebook(rulebook as u64);
    if (kind == 5) & known {
        return limit_sanction_of(rung);
    }
    if !(((1 <= kind) & (kind <= 3)) & known) {
        return 0;
    }
    if (rulebook == 1) & member {
        return by_three(rung, 1, 4, 5, 0);
    }
    by_three(rung, 1, 2, 3, 0)
}
