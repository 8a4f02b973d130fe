// The contract table: entries of 8 bytes, by rising contract id.
ghost use Rattle.std.specs.Prelude.{◌≡◌};
ghost use Rattle.tables.specs.ContractEntries.{contract_at, contract_in, found_contract};
ghost use Rattle.tables.specs.ContractEntries.{contract_good, contracts_good};

use rules::measure::Lots;
use rules::text::Text;
use wire::read::{get16, get32};

// Type and product are bytes as they came: which of them there are is for `contracts_good` to say, for every table.
#[derive(Debug, Clone, Copy, Default, PartialEq, Eq, Hash)]
pub struct Contract {
    pub id: u16,
    pub sort: u8,
    pub product: u8,
    pub largest: Lots,
}

// An entry's fields, from its two numbers of 32 bits, as an account's are.
fn contract_of(entry: &[u8; 8]) -> Contract
    ensures { result ≡ contract_at entry.now 0 }
{
    let [low, high, sort, product] = get32(entry, 0).to_le_bytes();
    Contract {
        id: u16::from_le_bytes([low, high]),
        sort,
        product,
        largest: Lots(get32(entry, 4)),
    }
}

fn contract_good(text: Text, before: u16, e: Contract) -> bool
    ensures { result ≡ contract_good text before e }
{
    (before < e.id)
        & rules::codes::has_type(text, e.sort)
        & (e.product <= 15)
        & ((1 <= e.largest.0) & (e.largest.0 <= 1000000))
}

// Whether each entry is good by the day's text, and its id above the one before: a loop, as `all` hands no id on, and
// of this table alone, as `accounts_good` says.
pub fn contracts_good(text: Text, part: &[u8]) -> bool
    ensures { result ≡ contracts_good text part.now }
{
    let mut good = true;
    let mut before = 0;
    for entry in part.as_chunks::<8>().0 {
        let e = contract_of(entry);
        good = good & contract_good(text, before, e);
        before = e.id;
    }
    good
}

// The entry at a place; past the end one of zeros, and no Option: `contract_in` of specs/ContractEntries is an entry
// for every place, and desk's verdicts go by it.
#[tactic(auto, using(crate::proofs::EntryLaws::entry_or_none), unfolding(crate::specs::ContractEntries::contract_in))]
pub fn contract_at(part: &[u8], k: usize) -> Contract
    ensures { result ≡ contract_in part.now k }
{
    if let Some(entry) = part.as_chunks::<8>().0.get(k) {
        return contract_of(entry);
    }
    Contract::default()
}

// The contract with this id: its place, from 0, and its entry.
pub fn find_contract(part: &[u8], id: u16) -> Option<(usize, Contract)>
    ensures { result ≡ found_contract part.now id }
{
    let entries = part.as_chunks::<8>().0;
    let k = entries.iter().position(|entry| get16(entry, 0) == id)?;
    Some((k, contract_of(&entries[k])))
}
