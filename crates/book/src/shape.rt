// A book's shape: its mark, and the kinds that it keeps.
ghost use Rattle.std.specs.Prelude.{◌≡◌};
ghost use Rattle.book.specs.Shape.{day_shape};

use rules::kinds::{Kinds, kinds_of};

// A mark is these two, "AX", and the shape's letter: compared on checking, and written in a head.
pub const MARK: [u8; 2] = [0x41, 0x58];

#[derive(Clone, Copy)]
pub struct Shape {
    // The byte itself, and no enum: it is compared and written as it is, and `mark` of specs/Layout takes any.
    pub letter: u8,
    pub kinds: Kinds,
}

// "AXB", the book of a rulebook's offences. The rulebook comes in 64 bits, as it is passed in.
#[tactic(auto, unfolding(crate::specs::Shape::day_shape))]
pub fn day_shape(rulebook: u64) -> Shape
    ensures { result ≡ day_shape rulebook }
{
    Shape {
        letter: 0x42,
        kinds: kinds_of(rulebook),
    }
}
