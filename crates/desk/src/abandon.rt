// Abandoning a day: it closes, and nothing is written.
ghost use Rattle.desk.specs.Abandon.{AbandonGives};

use crate::state::State;
use wire::refusal::Refusal;

#[tactic(auto, using(wire::proofs::ChosenLaws::chosen), unfolding(crate::specs::Abandon::abandon_answer))]
pub fn abandon(state: State) -> Result<State, Refusal>
    ensures { AbandonGives state result }
{
    match state {
        State::Open(_) => Ok(State::Closed),
        State::Closed => Err(Refusal::WrongState),
    }
}
