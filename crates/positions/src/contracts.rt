// The contract table of a position log: entries of 16 bytes, by rising contract id.
ghost use Rattle.std.specs.Prelude.{◌≡◌};
ghost use Rattle.positions.specs.LimitEntries.{limit_count, limited_at, limited_good, limits_good, limit_place};

use rules::measure::Lots;
use wire::read::{get16, get32};

// A contract with its limits.
#[derive(Clone, Copy)]
pub struct Limited {
    pub id: u16,
    pub sort: u8,
    pub product: u8,
    pub today: Lots,
    pub previous: Lots,
    pub spare: u32,
}

#[tactic(auto, unfolding(crate::specs::LimitEntries::limited_at))]
pub(crate) fn limit_of(entry: &[u8; 16]) -> Limited
    ensures { result ≡ limited_at entry.now 0 }
{
    Limited {
        id: get16(entry, 0),
        sort: entry[2],
        product: entry[3],
        today: Lots(get32(entry, 4)),
        previous: Lots(get32(entry, 8)),
        spare: get32(entry, 12),
    }
}

fn limited_good(before: u16, e: Limited) -> bool
    ensures { result ≡ limited_good before e }
{
    let today = e.today;
    let previous = e.previous;
    (before < e.id)
        & (e.sort == 1)
        & (e.product <= 15)
        & ((1 <= today.0) & (today.0 <= 1000000000))
        & ((1 <= previous.0) & (previous.0 <= 1000000000))
        & (e.spare == 0)
}

// Whether each entry is good, and its id above the one before: a loop, and no `all`, since it carries that id on.
pub(crate) fn limits_good(part: &[u8]) -> bool
    ensures { result ≡ limits_good part.now }
{
    let mut good = true;
    let mut before = 0;
    for entry in part.as_chunks::<16>().0 {
        let e = limit_of(entry);
        good = good & limited_good(before, e);
        before = e.id;
    }
    good
}

// The place of a contract id, or the number of entries where it is not there: no Option, as `next_place` carries it on
// from record to record, and `cell_at` of specs/Way counts by it.
pub(crate) fn limit_place(part: &[u8], id: u16) -> usize
    ensures { result ≡ limit_place (limited_at part.now) (limit_count part.now) id }
{
    let entries = part.as_chunks::<16>().0;
    entries
        .iter()
        .position(|entry| get16(entry, 0) == id)
        .unwrap_or(entries.len())
}
