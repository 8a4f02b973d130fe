// Taking a record.
ghost use Rattle.std.specs.Prelude.{◌≡◌};
ghost use Rattle.desk.specs.Take.{would_take, PlanTaken, TakeGives};

use crate::handed::Handed;
use crate::state::{Day, State};
use counts::cells::{check_plan, raise};
use counts::weigh::{Plan, Reasons};
use rules::kinds::kinds_of;
use wire::refusal::Refusal;

// What a record would count for and why it is spared: asked, and nothing written.
pub fn would_take(
    state: State,
    log: &[u8],
    row: &[u8],
    counts: &[u32],
) -> Result<(Plan, Reasons), Refusal>
    ensures { result ≡ would_take state log.now row.now counts.now }
{
    let State::Open(day) = state else {
        return Err(Refusal::WrongState);
    };
    let len = counts.len();
    let handed = Handed { day, log, row, len };
    let (plan, why) = handed.weigh_day()?;
    check_plan(kinds_of(day.head.rulebook as u64), day.taken, plan, counts)?;
    Ok((plan, why))
}

// Counts a record of an open day, one more being taken. A refusal leaves the counts.
#[tactic(auto, using(wire::proofs::ChosenLaws::chosen), unfolding(counts::specs::Cells::plan_fault))]
fn count_record(
    day: Day,
    p: Plan,
    why: Reasons,
    counts: &mut [u32],
) -> Result<(State, Reasons), Refusal>
    ensures { PlanTaken day p why counts.old result counts.new }
{
    let head = day.head;
    raise(kinds_of(head.rulebook as u64), day.taken, p, counts)?;
    let next = Day {
        head,
        taken: day.taken + 1,
    };
    Ok((State::Open(next), why))
}

// Takes a record: raises none, one or two counts, and passes on why it was spared. A refusal leaves the counts and the
// state.
pub fn take(
    state: State,
    log: &[u8],
    row: &[u8],
    counts: &mut [u32],
) -> Result<(State, Reasons), Refusal>
    ensures { TakeGives state log.now row.now counts.old result
        counts.new }
{
    let State::Open(day) = state else {
        return Err(Refusal::WrongState);
    };
    let len = counts.len();
    let handed = Handed { day, log, row, len };
    let (plan, why) = handed.weigh_day()?;
    count_record(day, plan, why, counts)
}
