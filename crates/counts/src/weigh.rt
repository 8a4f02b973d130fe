// One record judged against the tables: what it counts for, and where.
ghost use Rattle.std.specs.Prelude.{◌≡◌, true, ◌≤◌, length};
ghost use Rattle.tables.specs.Accounts.{accounts_good};
ghost use Rattle.tables.specs.Tables.{tables_in};
ghost use Rattle.counts.specs.Counting.{plan_for, reasons_for, weighed};
ghost use Rattle.counts.specs.Way.{self_trade_by, frequent_by, large_by};
ghost use Rattle.counts.specs.Weigh.{weighed_on};

use daylog::broker::brokers_wrong;
use daylog::changed::tables_changed;
use daylog::header::{Header, accounts_part, contracts_part, text_of};
use daylog::record::{Record, record_good, record_of};
use exemptions::clause::{Clauses, clauses_of};
use rules::measure::is_large;
use rules::text::Text;
use tables::accounts::find_account;
use tables::contracts::{Contract, find_contract};
use wire::read::get8;
use wire::refusal::Refusal;

// The group and the contract's place for which a record counts, and as which kinds.
#[derive(Clone, Copy)]
pub struct Plan {
    pub group: u8,
    pub place: u16,
    pub own: bool,
    pub frequent: bool,
    pub over: bool,
}

// Why it was spared: the clauses of its first order and of its second. A cancel has no second order, and all 0 there.
// No Option: `reasons_for` of specs/Counting says 0, and the demands' `passed_on` is a list of six numbers.
#[derive(Clone, Copy)]
pub struct Reasons {
    pub first: Clauses,
    pub second: Clauses,
}

// A record's clauses, on a contract: they are looked up once, and what it counts as goes by them. Its type stays the
// byte as it came, 1 a trade and 2 a cancel: this promises an answer for every byte, and an enum has no such answer.
#[tactic(auto, unfolding(crate::specs::Counting::reasons_for, wire::specs::Choice::pick))]
fn reasons_for(text: Text, e: Contract, r: Record) -> Reasons
    ensures { result ≡ reasons_for text e r }
{
    let first = clauses_of(text, e.sort, r.instruction, r.purpose);
    if r.sort != 1 {
        return Reasons {
            first,
            second: Clauses::default(),
        };
    }
    Reasons {
        first,
        second: clauses_of(text, e.sort, r.instruction2, r.purpose2),
    }
}

// A trade within one group, of which neither order is exempt.
fn is_self_trade(r: Record, why: Reasons, group: u8, group2: u8) -> bool
    ensures { result ≡ self_trade_by r why group group2 }
{
    let first = why.first;
    let second = why.second;
    (r.sort == 1) & ((group == group2) & (first.own == 0) & (second.own == 0))
}

fn is_frequent_cancel(r: Record, order: Clauses) -> bool
    ensures { result ≡ frequent_by r order }
{
    (r.sort == 2) & (order.frequent == 0)
}

fn is_large_cancel(text: Text, e: Contract, r: Record, order: Clauses) -> bool
    ensures { result ≡ large_by text e r order }
{
    let lots = r.lots;
    let largest = e.largest;
    (r.sort == 2) & is_large(text, lots, largest) & (order.over == 0)
}

// Text, entry, record and two groups, as `plan_for` of specs/Counting takes them. No Option for the second group: of a
// cancel any number there gives the same.
#[tactic(auto, using(crate::proofs::WeighLaws::by_clauses), unfolding(crate::specs::Counting::plan_for))]
fn weigh_for(
    text: Text,
    e: Contract,
    r: Record,
    place: u16,
    group: u8,
    group2: u8,
) -> (Plan, Reasons)
    ensures { result ≡ (plan_for text e r place group group2, reasons_for text e r) }
{
    let why = reasons_for(text, e, r);
    let order = why.first;
    let plan = Plan {
        group,
        place,
        own: is_self_trade(r, why, group, group2),
        frequent: is_frequent_cancel(r, order),
        over: is_large_cancel(text, e, r, order),
    };
    (plan, why)
}

// Each number is searched for once. The tables are sound: 32 contracts at the most, and accounts that rise.
#[tactic(auto, using(crate::proofs::WeighLaws::found), unfolding(
// the refusals in their order
crate::specs::Counting::weighed, crate::specs::Counting::fields_fault, tables::specs::Tables::tables_in,
// and an answer by their number
wire::specs::Outcomes::answered, wire::specs::Choice::pick))]
fn weigh_in(
    text: Text,
    contracts: &[u8],
    accounts: &[u8],
    r: Record,
) -> Result<(Plan, Reasons), Refusal>
    requires few { length contracts.now ≤ 256 }
    requires rising { accounts_good accounts.now ≡ true }
    ensures { result ≡ weighed (tables_in text contracts.now accounts.now) r }
{
    if !record_good(text, r) {
        return Err(Refusal::Fields);
    }
    let Some((at, e)) = find_contract(contracts, r.contract) else {
        return Err(Refusal::NoContract);
    };
    let place = at as u16;
    let first = find_account(accounts, r.first);
    if first.is_empty() {
        return Err(Refusal::NoAccount);
    }
    if r.sort != 1 {
        return Ok(weigh_for(text, e, r, place, get8(first, 4), 0));
    }
    let second = find_account(accounts, r.second);
    if second.is_empty() {
        return Err(Refusal::NoAccount);
    }
    Ok(weigh_for(text, e, r, place, get8(first, 4), get8(second, 4)))
}

// What a record counts for and why it was spared, by the tables that are lent with it, which must still be those of
// the day with this header.
#[tactic(auto, using(crate::proofs::WeighLaws::lent_tables), unfolding(
// 19, the brokers', and the refusals of the record's own fields
crate::specs::Weigh::weigh_fault, crate::specs::Weigh::record_fault,
// what is answered by their number
crate::specs::Weigh::weighed_on, crate::specs::Counting::weighed, wire::specs::Outcomes::answered,
// and how these are chosen
wire::specs::Choice::or_else, wire::specs::Choice::pick))]
pub fn weigh(head: Header, log: &[u8], row: &[u8]) -> Result<(Plan, Reasons), Refusal>
    ensures { result ≡ weighed_on head log.now row.now }
{
    if tables_changed(head, log) {
        return Err(Refusal::Changed);
    }
    if brokers_wrong(head.version, row) {
        return Err(Refusal::Fields);
    }
    weigh_in(
        text_of(head),
        contracts_part(head, log),
        accounts_part(head, log),
        record_of(row),
    )
}
