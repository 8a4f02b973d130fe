// The totals of one group raised by a day.
ghost use Rattle.std.specs.Prelude.{◌≡◌};
ghost use Rattle.posting.specs.Raise.{later_year, next_total, place_in, raised_part};

use book::sound::last_date;
use calendar::year_of;
use wire::read::get16;
use wire::write::put16;

// Whether a date is of a later year than the book's last.
pub fn is_later_year(book: &[u8], date: u32) -> bool
    ensures { result ≡ later_year book.now date }
{
    year_of(last_date(book)) < year_of(date)
}

// A total after the day: from zero in a later year, and one more with an offence.
#[tactic(auto, unfolding(crate::specs::Raise::next_total, wire::specs::Choice::pick))]
pub fn next_total(later: bool, hit: bool, total: u16) -> u16
    ensures { result ≡ next_total later hit total }
{
    let start = if later { 0 } else { total };
    start.wrapping_add(u16::from(hit))
}

// The place that stands for a ladder; past the end 255, which is no contract's: no Option, since `place_in` of
// specs/Raise is the byte that is kept.
#[tactic(auto, unfolding(crate::specs::Raise::place_in))]
pub fn place_in(places: &[u8], ladder: usize) -> usize
    ensures { result ≡ place_in places.now ladder }
{
    places.get(ladder).map_or(255, |place| *place as usize)
}

// Raises the totals in a group's part of the book. `places` has, for each ladder, the place of the lowest contract
// that reached the number; those of the group begin at `from`. A place from `contracts` on is none. Each total by its
// place: `as_chunks_mut` and `chunks_exact_mut` were tried, and after either no byte of the part is known.
pub fn raise_group(part: &mut [u8], later: bool, places: &[u8], from: u16, contracts: usize)
    ensures { part.new ≡ raised_part part.old later places.now from contracts }
{
    for j in 0..part.len() / 2 {
        let hit = place_in(places, (from as usize) + j) < contracts;
        let total = get16(part, 2 * j);
        put16(part, 2 * j, next_total(later, hit, total));
    }
}
