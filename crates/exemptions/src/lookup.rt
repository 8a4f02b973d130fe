// Where in the table the entry of an order's codes stands, and what it is.
ghost use Rattle.std.specs.Prelude.{◌≡◌, ◌≤◌};
ghost use Rattle.exemptions.specs.Sheet.{listed, place_of, codes_at, entry_of};

use crate::sheet::sheet;
use rules::text::{Text, is_rulebook};

// What an entry is for: the text of the day, the contract's type, the kind of offence, the order's instruction and its
// purpose. Numbers and no enums: `entry_of` promises an answer for every number, so that no caller has to test one.
#[derive(Debug, Clone, Copy, PartialEq, Eq, Hash)]
pub struct Codes {
    pub text: Text,
    pub sort: u8,
    pub kind: u8,
    pub instruction: u8,
    pub purpose: u8,
}

// How far apart the entries of two neighbouring kinds stand: 6 instructions by 4 purposes.
pub(crate) const KIND_STEP: usize = 24;

// Whether the table's lists have all of these codes.
#[tactic(auto, unfolding(crate::specs::Sheet::listed))]
pub(crate) fn is_listed(c: Codes) -> bool
    ensures { result ≡ listed c }
{
    is_rulebook(c.text.rulebook as u64)
        & ((1 <= c.sort) & (c.sort <= 2))
        & ((1 <= c.kind) & (c.kind <= 3))
        & ((1 <= c.instruction) & (c.instruction <= 6))
        & ((1 <= c.purpose) & (c.purpose <= 4))
}

// Where the entry of these codes stands, from 0.
#[tactic(auto, unfolding(crate::specs::Sheet::place_of))]
pub(crate) fn place_of(c: Codes) -> usize
    requires { (1 ≤ c.text.rulebook) × (1 ≤ c.sort) × (1 ≤ c.kind) × (1 ≤ c.instruction) × (1 ≤ c.purpose) }
    ensures { result ≡ place_of c }
{
    let block = ((c.text.rulebook as usize) - 1) * 2 + ((c.sort as usize) - 1);
    let row = (block * 3 + ((c.kind as usize) - 1)) * 6 + ((c.instruction as usize) - 1);
    row * 4 + ((c.purpose as usize) - 1)
}

// The codes whose entry stands there. Past the last entry the table begins again.
#[tactic(auto, unfolding(crate::specs::Sheet::codes_at))]
pub fn codes_at(place: usize) -> Codes
    ensures { result ≡ codes_at place }
{
    Codes {
        text: Text {
            rulebook: (place / 144 % 2 + 1) as u8,
        },
        sort: (place / 72 % 2 + 1) as u8,
        kind: (place / 24 % 3 + 1) as u8,
        instruction: (place / 4 % 6 + 1) as u8,
        purpose: (place % 4 + 1) as u8,
    }
}

// The entry of these codes. Those that no list has are exempt, and the table is not looked at.
#[tactic(auto, using(crate::proofs::SheetLaws::looking))]
pub fn entry_of(c: Codes) -> u8
    ensures { result ≡ entry_of c }
{
    if !is_listed(c) {
        return 1;
    }
    let table = sheet();
    table[place_of(c)]
}
