// Limits on what a group holds, with the accounts of the group taken together.
ghost use Rattle.std.specs.Prelude.{◌≡◌};
ghost use Rattle.rules.specs.Limits.{over_limit};

use crate::measure::Lots;
use crate::text::Text;

// Lots that are held on one side of a contract, in 64 bits: no log has records enough to wrap them.
#[derive(Debug, Clone, Copy, PartialEq, Eq, Hash)]
pub struct Held(pub u64);

// Whether they are over the limit: in rulebook 1 the previous day's limit spares what it allowed.
pub fn is_over(text: Text, sum: Held, today: Lots, previous: Lots) -> bool
    ensures { result ≡ over_limit text sum today previous }
{
    let above = (today.0 as u64) < sum.0;
    let above_before = (previous.0 as u64) < sum.0;
    ((text.rulebook == 1) & above & above_before) | ((text.rulebook == 2) & above)
}
