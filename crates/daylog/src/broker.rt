// Which broker sent the orders of a record: named in logs of version 2.
ghost use Rattle.std.specs.Prelude.{◌≡◌};
ghost use Rattle.daylog.specs.Brokers.{brokers_of, brokers_wrong};

use wire::read::{get8, get16};

// The version whose records have brokers.
pub(crate) const WITH_BROKERS: u16 = 2;

// Those of a record's two orders; 0 is not known, or none. No Option: `brokers_of` of specs/Brokers, which the function
// below promises, is two numbers with that 0.
#[derive(Clone, Copy, Default)]
pub struct Brokers {
    pub first: u16,
    pub second: u16,
}

// The brokers in a record's bytes, in a log of a version; a byte past the end counts as 0.
#[tactic(auto, using(wire::proofs::ChoiceLaws::chain), unfolding(crate::specs::Brokers::brokers_of))]
pub fn brokers_of(version: u16, row: &[u8]) -> Brokers
    ensures { result ≡ brokers_of version row.now }
{
    if version != WITH_BROKERS {
        return Brokers::default();
    }
    Brokers {
        first: get16(row, 20),
        second: get16(row, 22),
    }
}

// Whether a record lacks a broker that is due, or is a cancel with a second one.
#[tactic(auto, using(wire::proofs::ChoiceLaws::chain), unfolding(crate::specs::Brokers::brokers_wrong))]
pub fn brokers_wrong(version: u16, row: &[u8]) -> bool
    ensures { result ≡ brokers_wrong version row.now }
{
    if version != WITH_BROKERS {
        return false;
    }
    // The record's byte as it came, and no enum: `brokers_wrong` of specs/Brokers has an answer for each.
    let sort = get8(row, 0);
    let b = brokers_of(version, row);
    ((sort == 1) & ((b.first == 0) | (b.second == 0)))
        | ((sort == 2) & ((b.first == 0) | (b.second != 0)))
}
