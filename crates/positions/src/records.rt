// The records of a position log: 16 bytes each, by rising contract and account.
ghost use Rattle.std.specs.Prelude.{◌≡◌};
ghost use Rattle.positions.specs.Records.{position_at, fields_good};

use rules::measure::Lots;
use wire::read::{get16, get32};

// What an account holds of a contract.
#[derive(Clone, Copy)]
pub struct Position {
    pub contract: u16,
    pub spare: u16,
    pub account: u32,
    pub long: Lots,
    pub short: Lots,
}

#[tactic(auto, unfolding(crate::specs::Records::position_at))]
pub(crate) fn position_of(row: &[u8; 16]) -> Position
    ensures { result ≡ position_at row.now 0 }
{
    Position {
        contract: get16(row, 0),
        spare: get16(row, 2),
        account: get32(row, 4),
        long: Lots(get32(row, 8)),
        short: Lots(get32(row, 12)),
    }
}

// The record's own fields, after a record of this contract and account.
pub(crate) fn fields_good(contract: u16, account: u32, r: Position) -> bool
    ensures { result ≡ fields_good contract account r }
{
    let long = r.long;
    let short = r.short;
    ((contract < r.contract) | ((contract == r.contract) & (account < r.account)))
        & (r.spare == 0)
        & (long.0 <= 1000000)
        & (short.0 <= 1000000)
}
