// The two measures: trades and cancels are counted in times, order amounts in lots. One is never taken for the other.
ghost use Rattle.std.specs.Prelude.{◌≡◌};
ghost use Rattle.rules.specs.Measure.{large, enough, reached};

use crate::text::Text;

#[derive(Debug, Clone, Copy, Default, PartialEq, Eq, Hash)]
pub struct Lots(pub u32);

#[derive(Debug, Clone, Copy, PartialEq, Eq, Hash)]
pub struct Times(pub u32);

// Whether a cancel of so many lots is large on a contract with this largest order.
pub fn is_large(text: Text, lots: Lots, largest: Lots) -> bool
    ensures { result ≡ large text lots largest }
{
    let five = 5 * (lots.0 as u64);
    let four = 4 * (largest.0 as u64);
    ((text.rulebook == 1) & (four < five)) | ((text.rulebook == 2) & (four <= five))
}

// The times on one contract in one day that are an offence of a kind; 0, for none, of what the rulebook does not have:
// no Option, since `enough` of specs/Measure is a number, and `reached` goes by it.
#[tactic(auto, unfolding(crate::specs::Measure::enough, crate::specs::Choices::by_three, wire::specs::Choice::pick))]
pub fn enough_of(text: Text, kind: u8) -> Times
    ensures { result ≡ enough text kind }
{
    match (text.rulebook, kind) {
        (1 | 2, 1) => Times(5),
        (1 | 2, 2) => Times(500),
        (1, 3) => Times(400),
        (2, 3) => Times(100),
        _ => Times(0),
    }
}

// Whether so many times reach the number that is enough. Where there is none, nothing does.
pub fn is_reached(times: Times, number: Times) -> bool
    ensures { result ≡ reached times number }
{
    (1 <= number.0) & (number.0 <= times.0)
}
