// The book of positions: its shape, a fresh one, and one asked for a total.
ghost use Rattle.std.specs.Prelude.{◌≡◌};
ghost use Rattle.positions.specs.Books.{position_shape, FreshGives, AskGives};

use book::ask::{Asked, ask_as};
use book::shape::Shape;
use posting::fresh::fresh_as;
use rules::kinds::Kinds;
use wire::refusal::Refusal;

// The bytes of a book, and of the most findings that a day can have: 2,048 ladders.
pub const BOOK: usize = 4112;

pub const FINDINGS: usize = 16384;

// "AXQ", with one kind, 5.
#[tactic(auto, unfolding(crate::specs::Books::position_shape))]
pub fn position_shape() -> Shape
    ensures { result ≡ position_shape }
{
    Shape {
        letter: 0x51,
        kinds: Kinds::One,
    }
}

// Writes a fresh book of a rulebook over the whole buffer, or refuses and leaves it.
pub fn fresh(book: &mut [u8], rulebook: u64) -> Result<(), Refusal>
    ensures { FreshGives book.old rulebook result book.new }
{
    fresh_as(position_shape(), book, rulebook)
}

// Asks a book for a total and its rung: kind 5 and no other.
pub fn ask(book: &[u8], group: u64, kind: u64, family: u64) -> Result<Asked, Refusal>
    ensures { AskGives book.now group kind family result }
{
    ask_as(position_shape(), book, group, kind, family)
}
