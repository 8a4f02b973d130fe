// The page: a heading for each rulebook with its clause, one for each contract type and kind, and a line an entry.
ghost use Rattle.std.specs.Prelude.{◌<◌};

use crate::request::Asked;
use exemptions::lookup::{Codes, codes_at, entry_of};
use exemptions::sheet::ENTRIES;
use files::output::put;
use rules::codes::{has_instruction, has_type};
use std::io;
use words::codes::{add_clause, add_instruction, add_kind, add_purpose, add_rulebook, add_sort};
use words::line::Line;

// The longest line, an entry's, takes 102 bytes.
const LINE: usize = 128;

fn is_asked(asked: Option<u8>, code: u8) -> bool {
    asked.is_none_or(|one| one == code)
}

// Whether the entries of these codes' rulebook, type and kind are asked for.
fn is_block_asked(asked: Asked, c: Codes) -> bool {
    is_asked(asked.rulebook, c.text.rulebook)
        & is_asked(asked.sort, c.sort)
        & is_asked(asked.kind, c.kind)
}

fn is_entry_asked(asked: Asked, c: Codes) -> bool {
    is_block_asked(asked, c)
        & is_asked(asked.instruction, c.instruction)
        & is_asked(asked.purpose, c.purpose)
}

// Whether any entry has the codes asked for.
pub(crate) fn has_entry(asked: Asked) -> bool {
    (0..ENTRIES).any(|place| is_entry_asked(asked, codes_at(place)))
}

fn put_title(rt: &HostRuntime) -> io::Result<()> {
    put(rt, b"# Exemptions\n\n")?;
    put(
        rt,
        b"An order that is exempt for a kind of offence does not count for it.\n",
    )?;
    put(
        rt,
        b"Each line is an entry of the table that the desk looks up: its number, rulebook, contract\n",
    )?;
    put(
        rt,
        b"type, kind, instruction, purpose, and whether such an order counts or which clause exempts it.\n",
    )
}

// The heading of a rulebook, with the document's place that exempts.
fn put_rulebook(rt: &HostRuntime, rulebook: u8) -> io::Result<()> {
    match rulebook {
        1 => put(rt, b"\n## Rulebook 1, DCE: document 003, one (1) 4\n"),
        _ => put(
            rt,
            b"\n## Rulebook 2, CFX (CFFEX government bond futures): document 004, one (1) 5\n",
        ),
    }
}

// The codes that a block's lines share.
fn add_block(line: &mut Line, c: Codes) {
    add_rulebook(line, c.text.rulebook);
    line.add_text(b", ");
    add_sort(line, c.sort);
    line.add_text(b", ");
    add_kind(line, c.kind);
}

fn put_block(rt: &HostRuntime, c: Codes) -> io::Result<()> {
    let mut room = [0u8; LINE];
    let mut line = Line::new(&mut room);
    line.add_text(b"\n### ");
    add_block(&mut line, c);
    line.add_text(b"\n\n");
    put(rt, line.as_bytes())
}

fn is_first_of_block(c: Codes) -> bool {
    (c.instruction == 1) & (c.purpose == 1)
}

fn is_first_of_rulebook(c: Codes) -> bool {
    is_first_of_block(c) & (c.sort == 1) & (c.kind == 1)
}

// The headings that stand before the line of these codes.
fn put_headings(rt: &HostRuntime, asked: Asked, c: Codes) -> io::Result<()> {
    if is_first_of_rulebook(c) & is_asked(asked.rulebook, c.text.rulebook) {
        put_rulebook(rt, c.text.rulebook)?;
    }
    if is_first_of_block(c) & is_block_asked(asked, c) {
        return put_block(rt, c);
    }
    Ok(())
}

// Whether such an order counts, or its clause; of codes that a rulebook does not have, that it refuses them.
fn add_answer(line: &mut Line, c: Codes) {
    if has_type(c.text, c.sort) & has_instruction(c.text, c.instruction) {
        add_clause(line, entry_of(c));
    } else {
        line.add_text(b"exempt, refused by the rulebook");
    }
}

fn add_codes(line: &mut Line, c: Codes) {
    add_block(line, c);
    line.add_text(b", ");
    add_instruction(line, c.instruction);
    line.add_text(b", ");
    add_purpose(line, c.purpose);
}

fn add_entry(line: &mut Line, number: usize, c: Codes) {
    line.add_number(number as u64, b'.');
    line.add_text(b" ");
    add_codes(line, c);
    line.add_text(b": ");
    add_answer(line, c);
    line.add_text(b"\n");
}

fn put_entry(rt: &HostRuntime, number: usize, c: Codes) -> io::Result<()> {
    let mut room = [0u8; LINE];
    let mut line = Line::new(&mut room);
    add_entry(&mut line, number, c);
    put(rt, line.as_bytes())
}

// The headings before a place and its line, as far as they are asked for.
fn put_place(rt: &HostRuntime, asked: Asked, place: usize) -> io::Result<()>
    requires { place < 288 }
{
    let c = codes_at(place);
    put_headings(rt, asked, c)?;
    if is_entry_asked(asked, c) {
        return put_entry(rt, place + 1, c);
    }
    Ok(())
}

// The page of the entries asked for, or why standard output does not take it all.
pub(crate) fn print(rt: &HostRuntime, asked: Asked) -> io::Result<()> {
    put_title(rt)?;
    for place in 0..ENTRIES {
        put_place(rt, asked, place)?;
    }
    Ok(())
}
