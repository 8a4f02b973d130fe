// What a log's ladders are judged by: its text and contracts, the contracts' families, and what its groups are and
// hold.
ghost use Rattle.std.specs.Prelude.{◌≡◌, ◌≤◌, length};
ghost use Rattle.positions.specs.LimitEntries.{limit_count};

use crate::sums::Sums;
use rules::text::Text;

#[derive(Clone, Copy)]
pub(crate) struct Judging<'a> {
    pub(crate) text: Text,
    pub(crate) contracts: &'a [u8],
    pub(crate) fams: &'a [u8],
    // The number of accounts of each group, from group 0 on.
    pub(crate) sizes: &'a [u64; 129],
    pub(crate) sums: &'a Sums,
    ghost few: { length fams.now ≤ 32 },
    ghost each: { length fams.now ≡ limit_count contracts.now },
}
