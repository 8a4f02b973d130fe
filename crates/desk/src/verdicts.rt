// A day's verdict as bytes: the contracts' ids and the groups' members, beside each ladder's lowest place; and the day
// settled by it.
ghost use Rattle.std.specs.Prelude.{◌≡◌, ◌*◌, length};
ghost use Rattle.tables.specs.Entries.{entries};
ghost use Rattle.daylog.specs.Header.{contracts_part, accounts_part};
ghost use Rattle.book.specs.Shape.{day_shape};
ghost use Rattle.verdict.specs.Verdict.{verdict_in};
ghost use Rattle.verdict.specs.Settle.{SettleGives};
ghost use Rattle.desk.specs.Way.{ids_in, members_in};

use crate::closing::Closing;
use crate::lowest::LowestPlaces;
use book::shape::day_shape;
use daylog::header::{accounts_part, contracts_part};
use tables::accounts::has_member;
use tables::contracts::contract_at;
use verdict::ruling::Ruling;
use wire::fill::{fill_bytes, fill_pairs};
use wire::refusal::Refusal;

// The contracts' ids, 16 bits each. By the place, and with a twin in positions: `fill_families` in ladders.rt says why.
fn fill_ids(contracts: &[u8], ids: &mut [u8])
    requires { length ids.old ≡ 2 * entries contracts.now }
    ensures { ids.new ≡ ids_in contracts.now }
{
    fill_pairs(ids, |k| contract_at(contracts, k).id);
}

// A byte for each group, 1 where it has a member among the accounts.
fn fill_members(accounts: &[u8], members: &mut [u8; 128])
    ensures { members.new ≡ members_in accounts.now }
{
    fill_bytes(members, |g| u8::from(has_member(accounts, (g + 1) as u8)));
}

impl Closing<'_> {
    // The day settled by its lowest places.
    pub(crate) fn settle_day(
        &self,
        lowest: &LowestPlaces,
        book: &mut [u8],
        out: &mut [u8],
    ) -> Result<usize, Refusal>
        ensures { SettleGives (verdict_in (day_shape self.now.day.head.rulebook) self.now.day.head.rulebook
            lowest.now (ids_in (contracts_part self.now.day.head self.now.log.now))
            (members_in (accounts_part self.now.day.head self.now.log.now))) self.now.day.head.date
            book.old out.old result book.new out.new }
    {
        let h = self.day.head;
        let mut room = [0u8; 64];
        let ids = &mut room[..2 * (h.contracts as usize)];
        fill_ids(contracts_part(h, self.log), ids);
        let mut members = [0u8; 128];
        fill_members(accounts_part(h, self.log), &mut members);
        let ruling = Ruling {
            shape: day_shape(h.rulebook as u64),
            rulebook: h.rulebook,
            places: lowest.as_bytes(),
            ids,
            members: &members,
        };
        ruling.settle(h.date, book, out)
    }
}
