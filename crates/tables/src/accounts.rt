// The account table: entries of 8 bytes, by rising account number.
ghost use Rattle.std.specs.Prelude.{◌≡◌, ◌+◌, ◌*◌, ◌≤◌, length, true};
ghost use Rattle.tables.specs.Entries.{entries};
ghost use Rattle.tables.specs.Accounts.{account_at, account_good, accounts_good, has_member, account_entry};
ghost use Rattle.tables.specs.Way.{halved, found_account};

use wire::read::get32;

// The kind is a byte as it came: which there are is for `accounts_good` to say, for every table.
#[derive(Debug, Clone, Copy, PartialEq, Eq, Hash)]
pub struct Account {
    pub number: u32,
    pub group: u8,
    pub kind: u8,
    pub spare: u16,
}

// An entry's fields, from its two numbers of 32 bits. Each field by itself was tried: the loop below then takes twice
// the time, for each record that is taken (docs/LANDINGS.md, 13).
fn account_of(entry: &[u8; 8]) -> Account
    ensures { result ≡ account_at entry.now 0 }
{
    let [group, kind, low, high] = get32(entry, 4).to_le_bytes();
    Account {
        number: get32(entry, 0),
        group,
        kind,
        spare: u16::from_le_bytes([low, high]),
    }
}

// All tests at once, with no branch.
fn account_good(before: u32, e: Account) -> bool
    ensures { result ≡ account_good before e }
{
    (before < e.number)
        & ((1 <= e.group) & (e.group <= 128))
        & ((1 <= e.kind) & (e.kind <= 2))
        & (e.spare == 0)
}

// Whether each entry is good, and its number above the one before. One function for `contracts_good` and `limits_good`
// too would take each table's test as a closure that hands a number on, and would have to tell of its runs.
pub fn accounts_good(part: &[u8]) -> bool
    ensures { result ≡ accounts_good part.now }
{
    let mut good = true;
    let mut before = 0;
    for entry in part.as_chunks::<8>().0 {
        let e = account_of(entry);
        good = good & account_good(before, e);
        before = e.number;
    }
    good
}

// Whether a group has a non-broker member among the accounts. With no branch, as above: `any` stops at a member, and of
// a table without one, which each group then goes through, it takes several times as long.
pub fn has_member(part: &[u8], group: u8) -> bool
    ensures { result ≡ has_member (account_at part.now) (entries part.now) group }
{
    let mut none = true;
    for entry in part.as_chunks::<8>().0 {
        let e = account_of(entry);
        none = none & !((e.group == group) & (e.kind == 2));
    }
    !none
}

// The place that halving ends at: of the account, where it is in a table that rises. By hand: `by_halving` below
// promises an answer in tables out of order too, and std's binary searches promise none there.
fn halving(part: &[u8], number: u32) -> usize
    requires { 8 ≤ length part.now }
    ensures { result ≡ halved part.now number }
{
    let entries = part.as_chunks::<8>().0;
    let mut from = 0;
    let mut size = entries.len();
    while 1 < size {
        let half = size / 2;
        if get32(&entries[from + half], 0) <= number {
            from = from + half;
        }
        size = size - half;
    }
    from
}

// The account's entry as a part of the table: no Option, as `by_halving` promises the bytes `found_account`, and none
// where the account is not there; callers go by their length. In a table out of order it is what halving comes to.
pub fn find_account(part: &[u8], number: u32) -> &[u8]
    ensures by_halving { result.now ≡ found_account part.now number }
    ensures in_order { accounts_good part.now ≡ true → result.now ≡ account_entry part.now number }
{
    if part.len() < 8 {
        return &[];
    }
    let entry = &part.as_chunks::<8>().0[halving(part, number)];
    if get32(entry, 0) == number {
        entry
    } else {
        &[]
    }
}
