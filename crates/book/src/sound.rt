// Whether a book is sound.
ghost use Rattle.std.specs.Prelude.{◌≡◌};
ghost use Rattle.book.specs.Shape.{rulebook_of, shape_of};
ghost use Rattle.book.specs.Sound.{mark_good, head_good, most_of, totals_good, sound_as};
ghost use Rattle.book.specs.Layout.{last_date};

use crate::shape::{MARK, Shape, day_shape};
use places::{book_size, ladders_in};
use rules::kinds::Kinds;
use rules::text::is_rulebook;
use wire::read::{get8, get16, get32};

// Whether it begins with a letter's mark: a book, or a log.
pub fn is_marked(letter: u8, b: &[u8]) -> bool
    ensures { result ≡ mark_good letter b.now }
{
    b.starts_with(&MARK) & (get8(b, 2) == letter)
}

// Mark, rulebook, version, the zero bytes, and a last date that is 0 or a real day.
#[tactic(auto, unfolding(crate::specs::Sound::head_good))]
fn head_good(letter: u8, b: &[u8]) -> bool
    ensures { result ≡ head_good letter b.now }
{
    let date = get32(b, 6);
    is_marked(letter, b)
        & is_rulebook(get8(b, 3) as u64)
        & (get16(b, 4) == 1)
        & (get16(b, 10) == 0)
        & (get32(b, 12) == 0)
        & ((date == 0) | calendar::is_day(date))
}

// The most that the total at a ladder may be, where the day number of the last date is `day`.
#[tactic(auto, unfolding(crate::specs::Sound::most_of, wire::specs::Choice::pick))]
fn most_of(rulebook: u8, day: u32, ladder: usize) -> u32
    ensures { result ≡ most_of rulebook day ladder }
{
    if (rulebook == 1) & (2 <= ladder % 16) {
        return 0;
    }
    day
}

// No total stands above the most that it may be. All tests with no branch: over a sound book, where none fails, `all`
// takes a twentieth more instructions, and has a branch at each total.
fn totals_good(kinds: Kinds, b: &[u8], rulebook: u8, day: u32) -> bool
    ensures { result ≡ totals_good kinds b.now rulebook day }
{
    let mut good = true;
    for l in 0..ladders_in(kinds) {
        good = good & ((get16(b, 16 + 2 * l) as u32) <= most_of(rulebook, day, l));
    }
    good
}

// Whether it is a sound book of a shape.
#[tactic(auto, unfolding(crate::specs::Sound::sound_as))]
pub fn is_sound_as(shape: Shape, b: &[u8]) -> bool
    ensures { result ≡ sound_as shape b.now }
{
    let kinds = shape.kinds;
    if b.len() != book_size(kinds) {
        return false;
    }
    if !head_good(shape.letter, b) {
        return false;
    }
    totals_good(kinds, b, get8(b, 3), calendar::day_number(get32(b, 6)))
}

// The rulebook that a book names.
pub fn rulebook_of(b: &[u8]) -> u8
    ensures { result ≡ rulebook_of b.now }
{
    get8(b, 3)
}

// The shape that a book of offences has by the rulebook that it names.
pub fn shape_of(b: &[u8]) -> Shape
    ensures { result ≡ shape_of b.now }
{
    day_shape(rulebook_of(b) as u64)
}

// The date of the last day in a book, 0 when none. No Option: 0 is what the book has there, and a day that is not later
// is then found by one comparison, as `fits_fault` of specs/Fits has it.
pub fn last_date(b: &[u8]) -> u32
    ensures { result ≡ last_date b.now }
{
    get32(b, 6)
}
