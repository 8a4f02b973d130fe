// Whether a book fits a day.
ghost use Rattle.std.specs.Prelude.{◌≡◌};
ghost use Rattle.wire.specs.Outcomes.{checked};
ghost use Rattle.book.specs.Fits.{fits_fault};

use crate::shape::Shape;
use crate::sound::{is_sound_as, last_date, rulebook_of};
use wire::refusal::Refusal;

// Sound in its shape, of the day's rulebook, and with an earlier last date.
#[tactic(auto, using(wire::proofs::ChosenLaws::chosen), unfolding(crate::specs::Fits::fits_fault))]
pub fn check_fits(shape: Shape, rulebook: u8, date: u32, book: &[u8]) -> Result<(), Refusal>
    ensures { result ≡ checked (fits_fault shape rulebook date book.now) }
{
    if !is_sound_as(shape, book) {
        return Err(Refusal::NotSound);
    }
    if rulebook_of(book) != rulebook {
        return Err(Refusal::OtherRulebook);
    }
    if date <= last_date(book) {
        return Err(Refusal::NotLater);
    }
    Ok(())
}
