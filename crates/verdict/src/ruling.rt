// What a day is ruled by, in lent bytes.
use book::shape::Shape;

// `places` has each ladder's lowest place, a byte each, `ids` the contracts' ids, 16 bits each, `members` a byte for
// each group, 1 where it has a member among the day's accounts: a byte and no bool, as `verdict_in` and `sanction_for`
// of specs speak of these bytes, and positions hands in none of them, which `get8` reads as 0.
#[derive(Clone, Copy)]
pub struct Ruling<'a> {
    pub shape: Shape,
    pub rulebook: u8,
    pub places: &'a [u8],
    pub ids: &'a [u8],
    pub members: &'a [u8],
}
