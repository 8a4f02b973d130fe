// The refusals, as document 01 names them ("The calls and their refusals"). Each has its number there.
ghost use Rattle.std.specs.Prelude.{◌≡◌};
ghost use Rattle.wire.specs.Refusals.{number};

use std::error::Error;
use std::fmt;

#[derive(Clone, Copy, Debug, PartialEq, Eq, Hash)]
pub enum Refusal {
    // Under 16, or not 16+8C+8A, or a record not of 20 bytes, or of 24 in version 2.
    Length = 1,
    Mark,
    Version,
    // The rulebook number.
    Rulebook,
    Date,
    // C, A or bytes 14..15.
    Sizes,
    ContractEntry,
    AccountEntry,
    // The date is not later than the book's.
    NotLater,
    // A day is open for open; none is for take, end, abandon.
    WrongState,
    // The record's own fields, its brokers among them, or the wrong type for the call.
    Fields,
    // The contract is not in the tables.
    NoContract,
    // An account is not in the tables.
    NoAccount,
    // 1,000,000 records or more are already taken.
    Full,
    // The end record's number is not the records taken.
    OtherNumber,
    // The counts buffer is under 12,288.
    CountsShort,
    // The book is not sound; for a fresh one, its length is not 12,304.
    NotSound,
    // The book's rulebook is not the day's.
    OtherRulebook,
    // Changed since opening: the tables or a cell.
    Changed,
    // The findings buffer is under 8 bytes a finding.
    FindingsShort,
    // The group, kind or family asked for is out of range.
    OutOfRange,
    // A fault in a position log: its length, its header, an entry, a record, a number that its tables do not have.
    PositionLog,
}

impl Refusal {
    pub fn number(self) -> u32
        ensures { result ≡ number self }
    {
        self as u32
    }
}

impl fmt::Display for Refusal {
    fn fmt<W: fmt::Write>(&self, f: &mut fmt::Formatter<W>) -> fmt::Result {
        write!(f, "refused {}", self.number())
    }
}

impl Error for Refusal {}
