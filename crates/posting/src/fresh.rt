// Making a fresh book.
ghost use Rattle.std.specs.Prelude.{◌≡◌};
ghost use Rattle.wire.specs.Outcomes.{checked};
ghost use Rattle.posting.specs.Fresh.{fresh_fault_as, FreshGivesAs};

use crate::head::put_head;
use book::shape::Shape;
use places::book_size;
use rules::text::is_rulebook;
use wire::refusal::Refusal;

#[tactic(auto, using(wire::proofs::ChosenLaws::chosen), unfolding(crate::specs::Fresh::fresh_fault_as))]
fn check_fresh(shape: Shape, len: usize, rulebook: u64) -> Result<(), Refusal>
    ensures { result ≡ checked (fresh_fault_as shape len rulebook) }
{
    if !is_rulebook(rulebook) {
        return Err(Refusal::Rulebook);
    }
    if len != book_size(shape.kinds) {
        return Err(Refusal::NotSound);
    }
    Ok(())
}

// Writes a fresh book of a shape and a rulebook over the whole buffer, or refuses and leaves it.
pub fn fresh_as(shape: Shape, book: &mut [u8], rulebook: u64) -> Result<(), Refusal>
    ensures { FreshGivesAs shape book.old rulebook result book.new }
{
    check_fresh(shape, book.len(), rulebook)?;
    put_head(book, shape.letter, rulebook as u8, 0);
    book[16..].fill(0);
    Ok(())
}
