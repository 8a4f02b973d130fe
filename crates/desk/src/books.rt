// Making a fresh book of offences, and asking one for a total.
ghost use Rattle.desk.specs.Books.{FreshGives, AskGives};

use book::ask::{Asked, ask_as};
use book::shape::day_shape;
use book::sound::shape_of;
use posting::fresh::fresh_as;
use wire::refusal::Refusal;

// Writes a fresh book of a rulebook over the whole buffer, or refuses and leaves it.
pub fn fresh(book: &mut [u8], rulebook: u64) -> Result<(), Refusal>
    ensures { FreshGives book.old rulebook result book.new }
{
    fresh_as(day_shape(rulebook), book, rulebook)
}

// Asks a book for a total and its rung.
pub fn ask(book: &[u8], group: u64, kind: u64, family: u64) -> Result<Asked, Refusal>
    ensures { AskGives book.now group kind family result }
{
    ask_as(shape_of(book), book, group, kind, family)
}
