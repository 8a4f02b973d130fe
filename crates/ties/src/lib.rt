// What ties the demands to the code: where a call promises less than their runs go by, its function here is no longer
// proved. Nobody calls them.
#![tactic(auto)]

ghost use Rattle.ties.specs.Tied.{FreshTied, OpenTied, TakeTied, EndTied, AbandonTied, AskTied};

use book::ask::Asked;
use counts::weigh::Reasons;
use desk::state::State;
use wire::refusal::Refusal;

fn fresh_tied(book: &mut [u8], rulebook: u64) -> Result<(), Refusal>
    ensures { FreshTied book.old rulebook result book.new }
{
    desk::books::fresh(book, rulebook)
}

fn open_tied(state: State, log: &[u8], book: &[u8], counts: &mut [u32]) -> Result<State, Refusal>
    ensures { OpenTied state log.now book.now counts.old
        result counts.new }
{
    desk::open::open(state, log, book, counts)
}

fn take_tied(
    state: State,
    log: &[u8],
    row: &[u8],
    counts: &mut [u32],
) -> Result<(State, Reasons), Refusal>
    ensures { TakeTied state log.now row.now counts.old
        result counts.new }
{
    desk::take::take(state, log, row, counts)
}

fn end_tied(
    state: State,
    log: &[u8],
    row: &[u8],
    book: &mut [u8],
    counts: &[u32],
    findings: &mut [u8],
) -> Result<(State, usize), Refusal>
    ensures { EndTied state log.now row.now
        book.old counts.now findings.old
        result book.new findings.new }
{
    desk::end::end(state, log, row, book, counts, findings)
}

fn abandon_tied(state: State) -> Result<State, Refusal>
    ensures { AbandonTied state result }
{
    desk::abandon::abandon(state)
}

fn ask_tied(book: &[u8], group: u64, kind: u64, family: u64) -> Result<Asked, Refusal>
    ensures { AskTied book.now group kind family result }
{
    desk::books::ask(book, group, kind, family)
}
