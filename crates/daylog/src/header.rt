// The header, and opening's checks 1 to 8 in their order.
ghost use Rattle.std.specs.Prelude.{◌≡◌, ◌+◌, ◌*◌, ◌≤◌, length};
ghost use Rattle.wire.specs.Outcomes.{checked};
ghost use Rattle.daylog.specs.Header.{header_of, is_version, text_of, log_marked, sizes_good};
ghost use Rattle.daylog.specs.Header.{contracts_part, accounts_part, entries_fault, head_fault, log_fault};

use crate::broker::WITH_BROKERS;
use rules::text::{Text, is_rulebook};
use tables::accounts::accounts_good;
use tables::contracts::contracts_good;
use wire::read::{get8, get16, get32};
use wire::refusal::Refusal;

// The header's fields after the mark.
#[derive(Debug, Clone, Copy, PartialEq, Eq, Hash)]
pub struct Header {
    pub rulebook: u8,
    pub version: u16,
    pub date: u32,
    pub contracts: u16,
    pub accounts: u16,
    pub spare: u16,
}

#[tactic(auto, unfolding(crate::specs::Header::header_of))]
pub fn header_of(log: &[u8]) -> Header
    ensures { result ≡ header_of log.now }
{
    Header {
        rulebook: get8(log, 3),
        version: get16(log, 4),
        date: get32(log, 6),
        contracts: get16(log, 10),
        accounts: get16(log, 12),
        spare: get16(log, 14),
    }
}

// The text by which a day with this header is judged. A function and no `From`: what positions and desk promise is told
// by the definition of this name in specs/Header.
pub fn text_of(h: Header) -> Text
    ensures { result ≡ text_of h }
{
    Text {
        rulebook: h.rulebook,
    }
}

// The contract table's part of a log, as far as the log goes. Header and log go side by side, as specs/Header takes
// them.
pub fn contracts_part(h: Header, log: &[u8]) -> &[u8]
    ensures { result.now ≡ contracts_part h log.now }
{
    let rest = log.get(16..).unwrap_or(&[]);
    rest.get(..8 * (h.contracts as usize)).unwrap_or(rest)
}

// The account table's part: what comes after the contracts.
pub fn accounts_part(h: Header, log: &[u8]) -> &[u8]
    ensures { result.now ≡ accounts_part h log.now }
{
    log.get(16 + 8 * (h.contracts as usize)..).unwrap_or(&[])
}

// book's `is_marked` says the same of any letter, but daylog does not stand on book.
fn mark_good(log: &[u8]) -> bool
    ensures { result ≡ log_marked log.now }
{
    log.starts_with(b"AXD")
}

fn is_version(version: u16) -> bool
    ensures { result ≡ is_version version }
{
    (version == 1) | (version == WITH_BROKERS)
}

fn sizes_good(h: Header) -> bool
    ensures { result ≡ sizes_good h }
{
    ((1 <= h.contracts) & (h.contracts <= 32))
        & ((1 <= h.accounts) & (h.accounts <= 512))
        & (h.spare == 0)
}

// Checks 1 (whole length), 7 and 8: each table's part of the slice is handed to its own check.
#[tactic(auto, using(wire::proofs::ChosenLaws::chosen), unfolding(crate::specs::Header::entries_fault))]
fn check_entries(h: Header, log: &[u8]) -> Result<(), Refusal>
    ensures { result ≡ checked (entries_fault h log.now) }
{
    if log.len() != 16 + 8 * (h.contracts as usize) + 8 * (h.accounts as usize) {
        return Err(Refusal::Length);
    }
    if !contracts_good(text_of(h), contracts_part(h, log)) {
        return Err(Refusal::ContractEntry);
    }
    if !accounts_good(accounts_part(h, log)) {
        return Err(Refusal::AccountEntry);
    }
    Ok(())
}

// Checks 3 to 6, then those of the tables.
#[tactic(auto, using(wire::proofs::ChosenLaws::chosen), unfolding(crate::specs::Header::head_fault))]
fn check_head(h: Header, log: &[u8]) -> Result<(), Refusal>
    ensures { result ≡ checked (head_fault h log.now) }
{
    if !is_version(h.version) {
        return Err(Refusal::Version);
    }
    if !is_rulebook(h.rulebook as u64) {
        return Err(Refusal::Rulebook);
    }
    if !calendar::is_day(h.date) {
        return Err(Refusal::Date);
    }
    if !sizes_good(h) {
        return Err(Refusal::Sizes);
    }
    check_entries(h, log)
}

// The first of opening's checks 1 to 8 that a header with its tables fails, if any.
#[tactic(auto, using(wire::proofs::ChosenLaws::chosen), unfolding(crate::specs::Header::log_fault))]
pub fn check_log(log: &[u8]) -> Result<(), Refusal>
    ensures { result ≡ checked (log_fault log.now) }
{
    if log.len() < 16 {
        return Err(Refusal::Length);
    }
    if !mark_good(log) {
        return Err(Refusal::Mark);
    }
    check_head(header_of(log), log)
}
