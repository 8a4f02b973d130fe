// Judging a position log: checked and summed in one pass, then settled on its book.
ghost use Rattle.std.specs.Prelude.{◌≡◌, [], length};
ghost use Rattle.rules.specs.declared.kinds.Kinds.TheVariants.{One};
ghost use Rattle.places.specs.Places.{ladders};
ghost use Rattle.verdict.specs.Verdict.{verdict_in};
ghost use Rattle.verdict.specs.Settle.{SettleGives};
ghost use Rattle.daylog.specs.Header.{header_of, text_of};
ghost use Rattle.positions.specs.Books.{position_shape};
ghost use Rattle.positions.specs.Log.{limits_part, accounts_part};
ghost use Rattle.positions.specs.GoodPositions.{GoodPositions};
ghost use Rattle.positions.specs.Way.{families_in, sizes_in, places_in, ids_in};
ghost use Rattle.positions.specs.Judge.{JudgeGives};

use crate::books::position_shape;
use crate::judging::Judging;
use crate::log::{accounts_part, check_front, limits_part, sum_records};
use crate::offences::{fill_families, fill_ids};
use crate::sums::{Sums, sizes_in};
use book::fits::check_fits;
use daylog::header::{Header, header_of, text_of};
use verdict::ruling::Ruling;
use wire::refusal::Refusal;

// Every ladder's lowest place, with room of its own for the families and the groups' sizes.
fn judge_places(h: Header, log: &[u8], sums: &Sums, places: &mut [u8])
    requires { GoodPositions h log.now × (length places.old ≡ ladders One) }
    ensures { places.new ≡ places_in (text_of h) (limits_part h log.now) (families_in (text_of h)
        (limits_part h log.now)) sums.now.longs sums.now.shorts (sizes_in (accounts_part h log.now)) }
{
    let contracts = limits_part(h, log);
    let text = text_of(h);
    let sizes = sizes_in(accounts_part(h, log));
    let mut room = [0u8; 32];
    let fams = &mut room[0..contracts.len() / 16];
    fill_families(text, contracts, fams);
    let judging = Judging {
        text,
        contracts,
        fams,
        sizes: &sizes,
        sums,
    };
    judging.fill_places(places);
}

// A log without fault, on a book that fits it: judged by its sums and settled. A member changes no sanction: none is
// told of.
#[tactic(auto, unfolding(rules::specs::Kinds::kinds_in))]
fn settle_log(
    h: Header,
    log: &[u8],
    sums: &Sums,
    book: &mut [u8],
    out: &mut [u8],
) -> Result<usize, Refusal>
    requires { GoodPositions h log.now }
    ensures { SettleGives (verdict_in position_shape h.rulebook (places_in (text_of h)
        (limits_part h log.now) (families_in (text_of h) (limits_part h log.now))
        sums.now.longs sums.now.shorts (sizes_in (accounts_part h log.now))) (ids_in
        (limits_part h log.now)) []) h.date book.old out.old result
        book.new out.new }
{
    let contracts = limits_part(h, log);
    let mut places = [0u8; 2048];
    judge_places(h, log, sums, &mut places);
    let mut room = [0u8; 64];
    let ids = &mut room[0..2 * (contracts.len() / 16)];
    fill_ids(contracts, ids);
    let ruling = Ruling {
        shape: position_shape(),
        rulebook: h.rulebook,
        places: &places,
        ids,
        members: &[],
    };
    ruling.settle(h.date, book, out)
}

// Judges a position log: writes the findings and the book, or refuses and leaves both. The sums are made here,
// past the log's front, and lent from here on.
pub fn judge(log: &[u8], book: &mut [u8], out: &mut [u8]) -> Result<usize, Refusal>
    ensures { JudgeGives log.now book.old out.old result book.new out.new }
{
    check_front(log)?;
    let mut sums = Sums {
        longs: [0; 4096],
        shorts: [0; 4096],
    };
    sum_records(log, &mut sums)?;
    let h = header_of(log);
    check_fits(position_shape(), h.rulebook, h.date, book)?;
    settle_log(h, log, &sums, book, out)
}
