// What was asked for of positions, stated in specs/ and proved in proofs/; and what ties it to the code: where a call
// promises less than the runs go by, its function here is not proved. Nobody calls them.
#![tactic(auto)]

ghost use Rattle.position_demands.specs.Promised.{Promised};
ghost use Rattle.position_demands.specs.Tied.{FreshTied, JudgeTied, AskTied};

use book::ask::Asked;
use wire::refusal::Refusal;

// There is nothing to do: its contract is that every statement has its theorem.
fn promised()
    ensures { Promised }
{}

fn fresh_tied(book: &mut [u8], rulebook: u64) -> Result<(), Refusal>
    ensures { FreshTied book.old rulebook result book.new }
{
    positions::books::fresh(book, rulebook)
}

fn judge_tied(log: &[u8], book: &mut [u8], out: &mut [u8]) -> Result<usize, Refusal>
    ensures { JudgeTied log.now book.old out.old result book.new
        out.new }
{
    positions::judge::judge(log, book, out)
}

fn ask_tied(book: &[u8], group: u64, kind: u64, family: u64) -> Result<Asked, Refusal>
    ensures { AskTied book.now group kind family result }
{
    positions::books::ask(book, group, kind, family)
}
