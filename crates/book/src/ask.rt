// Asking a book for a total and its rung.
ghost use Rattle.std.specs.Prelude.{◌≡◌};
ghost use Rattle.wire.specs.Outcomes.{checked};
ghost use Rattle.places.specs.Places.{HasLadder, ladder_of};
ghost use Rattle.book.specs.Ask.{in_range, ask_fault_as, ask_answer_as};

use crate::shape::Shape;
use crate::sound::is_sound_as;
use rules::kinds::{Kinds, first_kind, kinds_in};
use wire::refusal::Refusal;

// What a book tells.
#[derive(Clone, Copy, Debug, PartialEq, Eq)]
pub struct Asked {
    pub total: u16,
    // 0 for total 0. No Option: `ask_answer_as` of specs/Ask gives the number `rung` of rules, which is 0 there.
    pub rung: u8,
}

// Group, kind and family stay three numbers: `ask_as` is handed three, and `in_range`, `ask_fault_as` and `ladder_of`
// of specs take three.
#[tactic(auto, using(crate::proofs::AskLaws::few_kinds), unfolding(crate::specs::Ask::in_range))]
fn in_range(kinds: Kinds, group: u64, kind: u64, family: u64) -> bool
    ensures { result ≡ in_range kinds group kind family }
{
    let first = first_kind(kinds) as u64;
    let after = first + (kinds_in(kinds) as u64);
    ((1 <= group) & (group <= 128)) & ((first <= kind) & (kind < after)) & (family <= 15)
}

#[tactic(auto, using(wire::proofs::ChosenLaws::chosen), unfolding(crate::specs::Ask::ask_fault_as))]
fn check_asked(shape: Shape, book: &[u8], group: u64, kind: u64, family: u64) -> Result<(), Refusal>
    ensures { result ≡ checked (ask_fault_as shape book.now group kind family) }
{
    if !is_sound_as(shape, book) {
        return Err(Refusal::NotSound);
    }
    if !in_range(shape.kinds, group, kind, family) {
        return Err(Refusal::OutOfRange);
    }
    Ok(())
}

#[tactic(auto, using(crate::proofs::AskLaws::few_kinds))]
fn ladder_of(kinds: Kinds, group: u64, kind: u64, family: u64) -> usize
    requires { HasLadder kinds group kind family }
    ensures { result ≡ ladder_of kinds group kind family }
{
    let row = (group - 1) * (kinds_in(kinds) as u64) + (kind - (first_kind(kinds) as u64));
    (row * 16 + family) as usize
}

// Asks a book of a shape. Group, kind and family come in 64 bits: 257 is refused and never read as 1.
#[tactic(auto, using(crate::proofs::AskLaws::asks), unfolding(crate::specs::Ask::ask_answer_as))]
pub fn ask_as(
    shape: Shape,
    book: &[u8],
    group: u64,
    kind: u64,
    family: u64,
) -> Result<Asked, Refusal>
    ensures { result ≡ ask_answer_as shape book.now group kind family }
{
    check_asked(shape, book, group, kind, family)?;
    let ladder = ladder_of(shape.kinds, group, kind, family);
    let total = wire::read::get16(book, 16 + 2 * ladder);
    Ok(Asked {
        total,
        rung: rules::ladder::rung_of(total as u32),
    })
}
