// What the clerk reads: each line is made whole, and then written at once.
use daylog::header::header_of;
use files::output::put;
use std::io;
use wire::read::{get8, get16};
use words::codes::add_rulebook;
use words::line::Line;

// The longest line, a finding with six numbers of at most 3, 1, 2, 5, 1 and 5 digits, takes 23 bytes.
const LINE: usize = 32;

// A word, a number and the line's end, printed.
pub(crate) fn print_count(rt: &HostRuntime, word: &[u8], n: u64) -> io::Result<()> {
    let mut room = [0u8; LINE];
    let mut line = Line::new(&mut room);
    line.add_text(word);
    line.add_number(n, b'\n');
    put(rt, line.as_bytes())
}

// The mark comes with the space after it. Every log has its rulebook and its date in the same places.
pub(crate) fn print_heading(rt: &HostRuntime, mark: &[u8], log: &[u8]) -> io::Result<()> {
    let head = header_of(log);
    let mut room = [0u8; LINE];
    let mut line = Line::new(&mut room);
    line.add_text(mark);
    line.add_number(head.date as u64, b' ');
    add_rulebook(&mut line, head.rulebook);
    line.add_text(b"\n");
    put(rt, line.as_bytes())
}

// A finding's 8 bytes are group, kind, family, sanction, total and contract; its line names the total before the
// sanction.
fn print_finding(rt: &HostRuntime, finding: &[u8]) -> io::Result<()> {
    let mut room = [0u8; LINE];
    let mut line = Line::new(&mut room);
    line.add_number(get8(finding, 0) as u64, b' ');
    line.add_number(get8(finding, 1) as u64, b' ');
    line.add_number(get8(finding, 2) as u64, b' ');
    line.add_number(get16(finding, 4) as u64, b' ');
    line.add_number(get8(finding, 3) as u64, b' ');
    line.add_number(get16(finding, 6) as u64, b'\n');
    put(rt, line.as_bytes())
}

// The first `found` findings, one line each.
fn print_findings(rt: &HostRuntime, findings: &[u8], found: usize) -> io::Result<()> {
    for finding in findings.chunks_exact(8).take(found) {
        print_finding(rt, finding)?;
    }
    Ok(())
}

// The day's lines, or why standard output does not take them all.
pub(crate) fn print_day(
    rt: &HostRuntime,
    mark: &[u8],
    log: &[u8],
    findings: &[u8],
    found: usize,
) -> io::Result<()> {
    print_heading(rt, mark, log)?;
    print_findings(rt, findings, found)?;
    print_count(rt, b"findings ", found as u64)
}
