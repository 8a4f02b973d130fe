// The line of a record: of each kind of offence that it may be, whether it counts, or why not.
use counts::weigh::{Plan, Reasons};
use daylog::record::Record;
use words::codes::{add_clause, add_kind};
use words::line::Line;

// The type of a trade. It is the byte as it came, and no enum: `record_good` of daylog tests it, for any byte.
pub(crate) const TRADE: u8 = 1;

// The longest line, a trade's, takes 158 bytes.
pub(crate) const LINE: usize = 192;

// An account of the record, and the kind that is told of it.
fn add_account(line: &mut Line, account: u32, kind: u8) {
    line.add_text(b" account ");
    line.add_number(account as u64, b',');
    line.add_text(b" ");
    add_kind(line, kind);
    line.add_text(b": ");
}

// An order's clause; where it has none and the record does not count all the same, the words that say why.
fn add_answer(line: &mut Line, clause: u8, counts: bool, words: &[u8]) {
    if (clause != 0) | counts {
        add_clause(line, clause);
    } else {
        line.add_text(words);
    }
}

// One order of a trade, by its clause and the other order's.
fn add_side(line: &mut Line, clause: u8, counts: bool, other: u8) {
    let words = if other != 0 {
        b"the other order is exempt".as_slice()
    } else {
        b"two groups".as_slice()
    };
    add_answer(line, clause, counts, words);
}

// A record, what it counts for, and the clauses of its orders.
#[derive(Clone, Copy)]
pub(crate) struct Weighed {
    pub(crate) record: Record,
    pub(crate) plan: Plan,
    pub(crate) why: Reasons,
}

impl Weighed {
    fn add_trade(self, line: &mut Line) {
        let first = self.why.first.own;
        let second = self.why.second.own;
        add_account(line, self.record.first, 1);
        add_side(line, first, self.plan.own, second);
        line.add_text(b";");
        add_account(line, self.record.second, 1);
        add_side(line, second, self.plan.own, first);
    }

    // A cancel without a clause always counts as a frequent one, so that the clause says it all.
    fn add_cancel(self, line: &mut Line) {
        let order = self.why.first;
        add_account(line, self.record.first, 2);
        add_clause(line, order.frequent);
        line.add_text(b"; ");
        add_kind(line, 3);
        line.add_text(b": ");
        add_answer(line, order.over, self.plan.over, b"not large");
    }

    fn add_kinds(self, line: &mut Line) {
        if self.record.sort == TRADE {
            self.add_trade(line);
        } else {
            self.add_cancel(line);
        }
    }

    // The whole line of this record, which has the number in its log.
    pub(crate) fn add_line(self, line: &mut Line, number: u32) {
        line.add_number(number as u64, b'.');
        line.add_text(b" contract ");
        line.add_number(self.record.contract as u64, b',');
        self.add_kinds(line);
        line.add_text(b"\n");
    }
}
