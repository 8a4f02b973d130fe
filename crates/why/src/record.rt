// One record that was taken: whether its line is asked for, and the line written.
use crate::asked::Asked;
use crate::line::{LINE, TRADE, Weighed};
use crate::stop::Stop;
use counts::weigh::{Reasons, weigh};
use daylog::header::header_of;
use daylog::record::record_of;
use office::lines::write;
use wire::read::get8;
use words::line::Line;

// Whether an order of the record is exempt for a kind that the record may be.
fn is_spared(sort: u8, why: Reasons) -> bool {
    let first = why.first;
    let second = why.second;
    if sort == TRADE {
        return (first.own != 0) | (second.own != 0);
    }
    (first.frequent != 0) | (first.over != 0)
}

// The line of the record with this number. Taking does not hand out what a record counts for: it is weighed again, but
// only for a line.
pub(crate) fn write_line(
    rt: &HostRuntime,
    number: u32,
    log: &[u8],
    row: &[u8],
) -> Result<(), Stop> {
    let (plan, why) = weigh(header_of(log), log, row)?;
    let mut room = [0u8; LINE];
    let mut line = Line::new(&mut room);
    let record = record_of(row);
    Weighed { record, plan, why }.add_line(&mut line, number);
    if write(rt, b"why", line.as_bytes()) < 0 {
        return Err(Stop::Unwritten);
    }
    Ok(())
}

pub(crate) fn is_asked(asked: Asked, number: u32, row: &[u8], why: Reasons) -> bool {
    match asked {
        Asked::Number(one) => one == number,
        Asked::Spared => is_spared(get8(row, 0), why),
    }
}
