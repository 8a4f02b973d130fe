// The cells that a record raises, and the refusals 14 and 19 before they are raised.
ghost use Rattle.std.specs.Prelude.{◌≡◌, true, false, ◌<◌, get_or};
ghost use Rattle.wire.specs.Outcomes.{checked};
ghost use Rattle.counts.specs.Counting.{counts_as};
ghost use Rattle.counts.specs.Cells.{cell_for, cell_changed, cells_changed, bumped, raised_for, raised};
ghost use Rattle.counts.specs.Cells.{plan_fault, counts_after};
ghost use Rattle.counts.specs.Way.{Small};

use crate::weigh::Plan;
use places::cell_of;
use rules::kinds::Kinds;
use wire::refusal::Refusal;

// A kind is its number, 1 to 3, as `cell_of` of places takes it: an enum would be turned back for each cell. Each of
// the three is named, as `cells_changed` and `raised` of specs/Cells name them. Kinds, records taken, plan and counts
// go by themselves, as the public `check_plan` and `raise`, and `plan_fault` of specs/Cells, take them.
impl Plan {
    #[tactic(auto, unfolding(crate::specs::Counting::counts_as))]
    fn counts_as(self, kind: u8) -> bool
        ensures { result ≡ counts_as self kind }
    {
        ((kind == 1) & self.own) | ((kind == 2) & self.frequent) | ((kind == 3) & self.over)
    }

    // The cell that it raises where it counts as a kind.
    #[tactic(auto, unfolding(crate::specs::Cells::cell_for))]
    fn cell(self, kinds: Kinds, kind: u8) -> usize
        ensures { result ≡ cell_for kinds self kind }
    {
        cell_of(kinds, self.group, kind, self.place)
    }
}

fn count_at(c: &[u32], i: usize) -> u32
    ensures { result ≡ get_or c.now i 0 }
{
    c.get(i).copied().unwrap_or(0)
}

// Whether the cell that is to be raised stands above the number of records taken.
#[tactic(auto, unfolding(crate::specs::Cells::cell_changed))]
fn cell_changed(kinds: Kinds, taken: u32, p: Plan, c: &[u32], kind: u8) -> bool
    ensures { result ≡ cell_changed kinds taken p c.now kind }
{
    p.counts_as(kind) & (taken < count_at(c, p.cell(kinds, kind)))
}

#[tactic(auto, unfolding(crate::specs::Cells::cells_changed))]
fn cells_changed(kinds: Kinds, taken: u32, p: Plan, c: &[u32]) -> bool
    ensures { result ≡ cells_changed kinds taken p c.now }
{
    cell_changed(kinds, taken, p, c, 1)
        | cell_changed(kinds, taken, p, c, 2)
        | cell_changed(kinds, taken, p, c, 3)
}

// One more in cell i, where the test holds. By its index: `get_mut` was tried, and after it no more is known of the
// counts than how many they are.
#[tactic(auto, unfolding(crate::specs::Cells::bumped, wire::specs::Choice::pick))]
fn bump(c: &mut [u32], raise: bool, i: usize)
    requires { raise ≡ true → get_or c.old i 0 < 4294967295 }
    ensures { c.new ≡ bumped raise i c.old }
{
    if raise && i < c.len() {
        c[i] += 1;
    }
}

#[tactic(auto, unfolding(crate::specs::Cells::raised_for, crate::specs::Way::Small))]
fn raise_for(kinds: Kinds, p: Plan, kind: u8, c: &mut [u32])
    requires { Small 4294967294 kinds p c.old kind }
    ensures { c.new ≡ raised_for kinds p kind c.old }
{
    bump(c, p.counts_as(kind), p.cell(kinds, kind));
}

// Whether a record that may be counted is refused: asked, and nothing written.
#[tactic(auto, using(wire::proofs::ChosenLaws::chosen), unfolding(crate::specs::Cells::plan_fault))]
pub fn check_plan(kinds: Kinds, taken: u32, p: Plan, c: &[u32]) -> Result<(), Refusal>
    ensures { result ≡ checked (plan_fault kinds taken p c.now) }
{
    if 1000000 <= taken {
        return Err(Refusal::Full);
    }
    if cells_changed(kinds, taken, p, c) {
        return Err(Refusal::Changed);
    }
    Ok(())
}

#[tactic(auto, using(crate::proofs::CellLaws::ready), unfolding(crate::specs::Cells::raised))]
fn raise_each(kinds: Kinds, taken: u32, p: Plan, c: &mut [u32])
    requires room { taken < 1000000 }
    requires unchanged { cells_changed kinds taken p c.old ≡ false }
    ensures { c.new ≡ raised kinds p c.old }
{
    raise_for(kinds, p, 1, c);
    raise_for(kinds, p, 2, c);
    raise_for(kinds, p, 3, c);
}

// Raises the cells of a record. A refusal leaves them.
#[tactic(auto, using(wire::proofs::ChosenLaws::chosen), unfolding(crate::specs::Cells::plan_fault))]
pub fn raise(kinds: Kinds, taken: u32, p: Plan, c: &mut [u32]) -> Result<(), Refusal>
    ensures answer { result ≡ checked (plan_fault kinds taken p c.old) }
    ensures counts { c.new ≡ counts_after kinds taken p c.old }
{
    check_plan(kinds, taken, p, c)?;
    raise_each(kinds, taken, p, c);
    Ok(())
}
