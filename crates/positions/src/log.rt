// The position log: its header and tables checked, and its records summed.
ghost use Rattle.std.specs.Prelude.{◌≡◌, replicate};
ghost use Rattle.wire.specs.Outcomes.{checked};
ghost use Rattle.rules.specs.declared.kinds.Kinds.TheVariants.{One};
ghost use Rattle.places.specs.Places.{cells};
ghost use Rattle.daylog.specs.Header.{header_of};
ghost use Rattle.positions.specs.Log.{accounts_from, records_from, limits_part, accounts_part, records_part};
ghost use Rattle.positions.specs.Log.{head_good, tables_fault, front_fault, log_fault};
ghost use Rattle.positions.specs.Sums.{sums_in};

use crate::contracts::limits_good;
use crate::sums::{Sums, add_records};
use book::sound::is_marked;
use daylog::header::{Header, header_of};
use rules::text::is_rulebook;
use tables::accounts::accounts_good;
use wire::refusal::Refusal;

// The bytes of the longest log: 32 contracts, 512 accounts, 16,384 records.
pub const MOST_LOG: usize = 266768;

fn head_good(h: Header) -> bool
    ensures { result ≡ head_good h }
{
    (h.version == 1)
        & is_rulebook(h.rulebook as u64)
        & calendar::is_day(h.date)
        & ((1 <= h.contracts) & (h.contracts <= 32))
        & ((1 <= h.accounts) & (h.accounts <= 512))
        & (h.spare <= 16384)
}

// Where the accounts begin, and where the records begin.
fn accounts_from(h: Header) -> usize
    ensures { result ≡ accounts_from h }
{
    16 + 16 * (h.contracts as usize)
}

fn records_from(h: Header) -> usize
    ensures { result ≡ records_from h }
{
    accounts_from(h) + 8 * (h.accounts as usize)
}

// Each part of a log, as far as the log goes. Header and log go side by side, as `limits_part` and the others of
// specs/Log take them; a struct of both would stand between the code and these.
pub(crate) fn limits_part(h: Header, log: &[u8]) -> &[u8]
    ensures { result.now ≡ limits_part h log.now }
{
    let rest = log.get(16..).unwrap_or(&[]);
    rest.get(..16 * (h.contracts as usize)).unwrap_or(rest)
}

pub(crate) fn accounts_part(h: Header, log: &[u8]) -> &[u8]
    ensures { result.now ≡ accounts_part h log.now }
{
    let rest = log.get(accounts_from(h)..).unwrap_or(&[]);
    rest.get(..8 * (h.accounts as usize)).unwrap_or(rest)
}

fn records_part(h: Header, log: &[u8]) -> &[u8]
    ensures { result.now ≡ records_part h log.now }
{
    log.get(records_from(h)..).unwrap_or(&[])
}

// The whole length, and each table's part of the log handed to its own check.
#[tactic(auto, using(crate::proofs::FaultLaws::checks), unfolding(crate::specs::Log::tables_fault))]
fn check_tables(h: Header, log: &[u8]) -> Result<(), Refusal>
    ensures { result ≡ checked (tables_fault h log.now) }
{
    if log.len() != records_from(h) + 16 * (h.spare as usize) {
        return Err(Refusal::PositionLog);
    }
    if !limits_good(limits_part(h, log)) {
        return Err(Refusal::PositionLog);
    }
    if !accounts_good(accounts_part(h, log)) {
        return Err(Refusal::PositionLog);
    }
    Ok(())
}

// The log up to its records.
#[tactic(auto, using(crate::proofs::FaultLaws::checks), unfolding(crate::specs::Log::front_fault))]
pub(crate) fn check_front(log: &[u8]) -> Result<(), Refusal>
    ensures { result ≡ checked (front_fault log.now) }
{
    if log.len() < 16 {
        return Err(Refusal::PositionLog);
    }
    if !is_marked(0x50, log) {
        return Err(Refusal::PositionLog);
    }
    let h = header_of(log);
    if !head_good(h) {
        return Err(Refusal::PositionLog);
    }
    check_tables(h, log)
}

// Refuses a log at its records, or sums what each group holds on each contract, long and short.
pub(crate) fn sum_records(log: &[u8], sums: &mut Sums) -> Result<(), Refusal>
    requires { (front_fault log.now ≡ 0) × (sums.old.longs ≡ replicate (cells One) 0) ×
        (sums.old.shorts ≡ replicate (cells One) 0) }
    ensures value { result ≡ checked (log_fault log.now) }
    ensures sums_after { log_fault log.now ≡ 0 → sums.new ≡ sums_in (header_of log.now) log.now }
{
    let h = header_of(log);
    let contracts = limits_part(h, log);
    let accounts = accounts_part(h, log);
    if !add_records(contracts, accounts, records_part(h, log), sums) {
        return Err(Refusal::PositionLog);
    }
    Ok(())
}
