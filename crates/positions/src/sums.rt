// What each group holds on each contract, all accounts together: the records checked and summed in one pass.
ghost use Rattle.std.specs.Prelude.{◌≡◌, true, ◌+◌, ◌≤◌, ◌<◌, length, get_or, replicate};
ghost use Rattle.rules.specs.declared.kinds.Kinds.TheVariants.{One};
ghost use Rattle.places.specs.Places.{cells};
ghost use Rattle.tables.specs.Accounts.{accounts_good};
ghost use Rattle.positions.specs.LimitEntries.{limit_count, limited_at, limit_place};
ghost use Rattle.positions.specs.Records.{records_good};
ghost use Rattle.positions.specs.Way.{added_in, sizes_in};
ghost use Rattle.positions.specs.Sums.{sums_of};

use crate::contracts::limit_place;
use crate::records::{fields_good, position_of};
use places::cell_of;
use rules::kinds::Kinds;
use tables::accounts::find_account;
use wire::read::get8;

// A sum for each cell, long and short: two arrays, and none of pairs, as `long_in` and `short_in` of specs/Way are a
// list each. `judge` makes it and lends it: it has 64 KiB, which an answer that holds it copies at each `?`.
#[derive(Drop)]
pub(crate) struct Sums {
    pub(crate) longs: [u64; 4096],
    pub(crate) shorts: [u64; 4096],
}

// Adds an amount in cell i. By index: after `get_mut`, tried here, a proof knows of the cells no more than how many.
// `bump` of counts is the same for 32 bits and 1: two lines each, and one for both would need a trait of numbers and
// its laws.
#[tactic(auto, unfolding(crate::specs::Way::added_in))]
fn add(c: &mut [u64], i: usize, amount: u64)
    requires { get_or c.old i 0 + amount < 18446744073709551616 }
    ensures { c.new ≡ added_in c.old i amount }
{
    if i < c.len() {
        c[i] += amount;
    }
}

// How many accounts each group has.
pub(crate) fn sizes_in(accounts: &[u8]) -> [u64; 129]
    requires { length accounts.now ≤ 4096 }
    ensures { result ≡ sizes_in accounts.now }
{
    let mut sizes = [0; 129];
    for entry in accounts.as_chunks::<8>().0 {
        add(&mut sizes, entry[4] as usize, 1);
    }
    sizes
}

// The place of a record's contract: it is that of the record before while the contract does not change.
fn next_place(contracts: &[u8], before: u16, place: usize, id: u16) -> usize
    requires { place ≡ limit_place (limited_at contracts.now) (limit_count contracts.now) before }
    ensures { result ≡ limit_place (limited_at contracts.now) (limit_count contracts.now) id }
{
    if id == before {
        return place;
    }
    limit_place(contracts, id)
}

// Whether every record is good; if so, the sums, which are zeros before, are those of all records.
pub(crate) fn add_records(
    contracts: &[u8],
    accounts: &[u8],
    records: &[u8],
    sums: &mut Sums,
) -> bool
    requires { (length contracts.now ≤ 512) × (accounts_good accounts.now ≡ true) ×
        (length records.now ≤ 262144) × (sums.old.longs ≡ replicate (cells One) 0) ×
        (sums.old.shorts ≡ replicate (cells One) 0) }
    ensures value { result ≡ records_good contracts.now accounts.now records.now }
    ensures sums_after { result ≡ true → sums.new ≡ sums_of contracts.now accounts.now records.now }
{
    let mut contract = 0;
    let mut account = 0;
    let mut place = limit_place(contracts, 0);
    for row in records.as_chunks::<16>().0 {
        let r = position_of(row);
        let long = r.long;
        let short = r.short;
        place = next_place(contracts, contract, place, r.contract);
        let entry = find_account(accounts, r.account);
        if !(fields_good(contract, account, r)
            & (place < contracts.len() / 16)
            & (entry.len() != 0))
        {
            return false;
        }
        let cell = cell_of(Kinds::One, get8(entry, 4), 5, place as u16);
        add(&mut sums.longs, cell, long.0 as u64);
        add(&mut sums.shorts, cell, short.0 as u64);
        contract = r.contract;
        account = r.account;
    }
    true
}
