// The codes in words, each added to a line. They stay bytes, as a log has them: each function answers for any byte, and
// an enum would ask more of callers than it did.
ghost use Rattle.words.specs.Line.{Adds};

use crate::line::Line;

pub fn add_rulebook(line: &mut Line, rulebook: u8)
    ensures { Adds line.old line.new }
{
    match rulebook {
        1 => line.add_text(b"DCE"),
        _ => line.add_text(b"CFX"),
    }
}

pub fn add_sort(line: &mut Line, sort: u8)
    ensures { Adds line.old line.new }
{
    match sort {
        1 => line.add_text(b"futures"),
        _ => line.add_text(b"option"),
    }
}

pub fn add_kind(line: &mut Line, kind: u8)
    ensures { Adds line.old line.new }
{
    match kind {
        1 => line.add_text(b"self-trade"),
        2 => line.add_text(b"frequent cancels"),
        _ => line.add_text(b"large cancels"),
    }
}

pub fn add_instruction(line: &mut Line, instruction: u8)
    ensures { Adds line.old line.new }
{
    match instruction {
        1 => line.add_text(b"plain limit"),
        2 => line.add_text(b"market"),
        3 => line.add_text(b"stop"),
        4 => line.add_text(b"arbitrage order"),
        5 => line.add_text(b"FOK"),
        _ => line.add_text(b"FAK"),
    }
}

pub fn add_purpose(line: &mut Line, purpose: u8)
    ensures { Adds line.old line.new }
{
    match purpose {
        1 => line.add_text(b"ordinary"),
        2 => line.add_text(b"hedge"),
        3 => line.add_text(b"arbitrage"),
        _ => line.add_text(b"market making"),
    }
}

// By which clause an order is exempt, or that it counts.
pub fn add_clause(line: &mut Line, clause: u8)
    ensures { Adds line.old line.new }
{
    match clause {
        0 => line.add_text(b"counts"),
        1 => line.add_text(b"exempt by instruction"),
        2 => line.add_text(b"exempt by purpose"),
        _ => line.add_text(b"exempt by instruction and purpose"),
    }
}
