// A record: its length, and the fields in it that stand by themselves; and the end record.
ghost use Rattle.std.specs.Prelude.{◌≡◌};
ghost use Rattle.daylog.specs.Records.{record_length, record_of, order_good, record_good, end_good};

use crate::broker::WITH_BROKERS;
use rules::measure::Lots;
use rules::text::Text;
use wire::read::{get8, get16, get32};

// The codes are bytes as they came: which of them there are is for `record_good` to say, for every record.
#[derive(Clone, Copy)]
pub struct Record {
    pub sort: u8,
    pub spare: u8,
    pub contract: u16,
    pub first: u32,
    pub second: u32,
    pub lots: Lots,
    pub instruction: u8,
    pub purpose: u8,
    pub instruction2: u8,
    pub purpose2: u8,
}

// How many bytes a record has, in a log of a version.
#[tactic(auto, using(wire::proofs::ChoiceLaws::chain), unfolding(crate::specs::Records::record_length))]
pub fn record_length(version: u16) -> usize
    ensures { result ≡ record_length version }
{
    if version == WITH_BROKERS { 24 } else { 20 }
}

// The fields of a record's bytes; a byte past the end counts as 0.
#[tactic(auto, unfolding(crate::specs::Records::record_of))]
pub fn record_of(bytes: &[u8]) -> Record
    ensures { result ≡ record_of bytes.now }
{
    Record {
        sort: get8(bytes, 0),
        spare: get8(bytes, 1),
        contract: get16(bytes, 2),
        first: get32(bytes, 4),
        second: get32(bytes, 8),
        lots: Lots(get32(bytes, 12)),
        instruction: get8(bytes, 16),
        purpose: get8(bytes, 17),
        instruction2: get8(bytes, 18),
        purpose2: get8(bytes, 19),
    }
}

fn order_good(text: Text, instruction: u8, purpose: u8) -> bool
    ensures { result ≡ order_good text instruction purpose }
{
    rules::codes::has_instruction(text, instruction) & rules::codes::has_purpose(text, purpose)
}

// Whether a record is a trade or a cancel with its own fields in order.
#[tactic(auto, unfolding(crate::specs::Records::record_good))]
pub fn record_good(text: Text, r: Record) -> bool
    ensures { result ≡ record_good text r }
{
    let first = order_good(text, r.instruction, r.purpose);
    let second = order_good(text, r.instruction2, r.purpose2);
    let none = (r.second == 0) & (r.instruction2 == 0) & (r.purpose2 == 0);
    (r.spare == 0)
        & ((1 <= r.lots.0) & (r.lots.0 <= 1000000))
        & first
        & (((r.sort == 1) & second) | ((r.sort == 2) & none))
}

// Whether an end record has its type, and zero in all bytes but those of the number.
#[tactic(auto, unfolding(crate::specs::Records::end_good))]
pub fn end_good(row: &[u8]) -> bool
    ensures { result ≡ end_good row.now }
{
    (get8(row, 0) == 3)
        & (get8(row, 1) == 0)
        & (get16(row, 2) == 0)
        & (get32(row, 8) == 0)
        & (get32(row, 12) == 0)
        & (get32(row, 16) == 0)
        & (get32(row, 20) == 0)
}
