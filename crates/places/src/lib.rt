// Sizes, and where ladders and cells stand, by the kinds that are kept.
#![tactic(auto)]

ghost use Rattle.std.specs.Prelude.{◌≡◌};
ghost use Rattle.places.specs.Places.{ladders, cells, book_size, group_at, kind_at, cell_of};

use rules::kinds::{Kinds, MOST_KINDS, first_kind, kinds_in};

// Buffers of these sizes serve every rulebook: a byte a ladder, counts, a book, a day's findings.
pub const MOST_LADDERS: usize = 2048 * MOST_KINDS;

pub const MOST_CELLS: usize = 4096 * MOST_KINDS;

pub const MOST_BOOK: usize = 16 + 2 * MOST_LADDERS;

pub const MOST_FINDINGS: usize = 8 * MOST_LADDERS;

#[tactic(auto, using(rules::proofs::KindLaws::few))]
pub fn ladders_in(kinds: Kinds) -> usize
    ensures { result ≡ ladders kinds }
{
    2048 * kinds_in(kinds)
}

#[tactic(auto, using(rules::proofs::KindLaws::few))]
pub fn cells_in(kinds: Kinds) -> usize
    ensures { result ≡ cells kinds }
{
    4096 * kinds_in(kinds)
}

#[tactic(auto, using(rules::proofs::KindLaws::few))]
pub fn book_size(kinds: Kinds) -> usize
    ensures { result ≡ book_size kinds }
{
    16 + 2 * ladders_in(kinds)
}

// The group of a ladder.
#[tactic(auto, using(rules::proofs::KindLaws::few))]
pub fn group_at(kinds: Kinds, ladder: usize) -> usize
    ensures { result ≡ group_at kinds ladder }
{
    ladder / (16 * kinds_in(kinds)) + 1
}

// The kind of a ladder.
#[tactic(auto, using(rules::proofs::KindLaws::few, rules::proofs::KindLaws::first_low))]
pub fn kind_at(kinds: Kinds, ladder: usize) -> u8
    ensures { result ≡ kind_at kinds ladder }
{
    let place = (ladder / 16 % kinds_in(kinds)) as u8;
    place + first_kind(kinds)
}

// The cell of a group and a kind, on the contract at a place.
#[tactic(auto, using(rules::proofs::KindLaws::few))]
pub fn cell_of(kinds: Kinds, group: u8, kind: u8, place: u16) -> usize
    ensures { result ≡ cell_of kinds group kind place }
{
    let groups_before = group.saturating_sub(1) as usize;
    let row = groups_before * kinds_in(kinds) + (kind.saturating_sub(first_kind(kinds)) as usize);
    row * 32 + (place as usize)
}
