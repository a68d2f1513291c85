// One line of a register text: its fields and its mark, read at a place of the lent text. Numbers are left to `register_number`,
// and whether a line is in order after those before it to others.
#![tactic(auto)]

pub mod reader;

ghost use Rattle.std.specs.Prelude.{◌≡◌, ◌≤◌, length};
ghost use Rattle.register_line.specs.LineReading.{MarkOf, GotStatement, GotObjection, GotAt};
ghost use Rattle.register.specs.Lines.{mark_number};

use register::{Line, Mark, ObjectionLine, StatementLine};
use register_number::{byte_at, number_at};

// The number of a mark. Not `From`, which would stand in `register`: a crate with a bare noun has no function (tests/house.sh).
pub fn mark_number(mark: Mark) -> u8
    ensures { result ≡ mark_number mark }
{
    match mark {
        Mark::Read => 0,
        Mark::Unread => 1,
    }
}

// The mark that a byte is.
pub fn mark_of(byte: u32) -> Option<Mark>
    ensures { MarkOf byte result }
{
    match byte {
        82 => Some(Mark::Read),
        85 => Some(Mark::Unread),
        _ => None,
    }
}

// After a statement's `S` and tab: number, tab, mark, byte 10. Answers the line, and the place behind it; so do the functions
// below.
fn statement_at(s: &[u8], at: usize) -> Option<(Line, usize)>
    requires { at ≤ length s.now }
    ensures { GotStatement s.now at result }
{
    let (number, end) = number_at(s, at)?;
    if byte_at(s, end) != 9 {
        return None;
    }
    if byte_at(s, end + 2) != 10 {
        return None;
    }
    let mark = mark_of(byte_at(s, end + 1))?;
    Some((Line::Statement(StatementLine { number, mark }), end + 3))
}

// After an objection's `O` and tab: number, tab, number, byte 10.
fn objection_at(s: &[u8], at: usize) -> Option<(Line, usize)>
    requires { at ≤ length s.now }
    ensures { GotObjection s.now at result }
{
    let (objector, tab) = number_at(s, at)?;
    if byte_at(s, tab) != 9 {
        return None;
    }
    let (target, end) = number_at(s, tab + 1)?;
    if byte_at(s, end) != 10 {
        return None;
    }
    Some((Line::Objection(ObjectionLine { objector, target }), end + 1))
}

// The line that starts at a place, and where the next one starts. Past the end there is none.
pub fn line_at(s: &[u8], at: usize) -> Option<(Line, usize)>
    ensures { GotAt s.now at result }
{
    if s.len() < at {
        return None;
    }
    let kind = byte_at(s, at);
    if byte_at(s, at + 1) != 9 {
        return None;
    }
    match kind {
        83 => statement_at(s, at + 2),
        79 => objection_at(s, at + 2),
        _ => None,
    }
}
