// The register text: read line by line into lent rooms, or refused with 01's number and line. What is accepted and what is
// refused, `register` says; what a line is, is left to `register_line`, and labels to others.
#![tactic(auto)]

mod rooms;

ghost use Rattle.std.specs.Prelude.{true, false, ◌≡◌, ◌≤◌, ◌<◌, ◌+◌, length, OnOk};
ghost use Rattle.register_index.specs.IndexAt.{IsIndexed, SameParts};
ghost use Rattle.register.specs.Reads.{NotEnded};
ghost use Rattle.pair_words.specs.Words.{objectors_in, targets_in};
ghost use Rattle.pair_repeat.specs.Entered.{Entered};
ghost use Rattle.register_read.specs.ReadAs.{ReadAs};
ghost use Rattle.register_read.specs.ReadState.{StatementTaken, InStep, CountedOn, ObjectionTaken, Spacious, ReadsTo};

use lists::{NumberedPairs, Pairs};
use register::{Line, ObjectionLine, StatementLine, TextFault};
use register_index::NumberIndex;
pub use rooms::RegisterRooms;

// Whether the text is empty or ends with byte 10.
pub fn ended(text: &[u8]) -> bool
    ensures { (result ≡ true → ¬ NotEnded text.now) × (result ≡ false → NotEnded text.now) }
{
    match text.last() {
        Some(byte) => *byte == 10,
        None => true,
    }
}

// The number of the line after n statements and m objections.
fn line_after(n: usize, m: usize) -> u32
    requires { (n ≤ 1024) × (m ≤ 4096) }
    ensures { result ≡ n + m + 1 }
{
    (n + m + 1) as u32
}

// Takes a statement line after n statements and m objections: 4, 6, 5, or kept.
fn take_statement(
    index: &mut NumberIndex,
    marks: &mut [u8],
    m: usize,
    statement: StatementLine,
) -> Result<(), TextFault>
    requires m_bound { (m ≤ 4096) × (1024 ≤ length index.old.numbers.now) × (1024 ≤ length marks.old) }
    requires indexed { IsIndexed index.old }
    ensures taken { StatementTaken index.old.numbers.now marks.old index.old.n m statement
        index.new.numbers.now marks.new result }
    ensures in_step { InStep index.new.numbers.now index.old.n index.new.links.now result }
    ensures count { CountedOn index.old.n index.new.n result }
    ensures same { SameParts index.old index.new }
{
    let n = index.n;
    if m > 0 {
        return Err(TextFault::Late(line_after(n, m)));
    }
    if n >= 1024 {
        return Err(TextFault::Statements(line_after(n, m)));
    }
    let StatementLine { number, mark } = statement;
    if register_index::look_up_in(index, number).is_some() {
        return Err(TextFault::Issued(line_after(n, m)));
    }
    register_index::enter(index, number);
    marks[n] = register_line::mark_number(mark);
    Ok(())
}

// Takes an objection line after n statements and m objections: 9, 7, 8, or kept, by the places of its numbers.
fn take_objection(
    index: &NumberIndex,
    objectors: &mut [u32],
    targets: &mut [u32],
    m: usize,
    objection: ObjectionLine,
) -> Result<(), TextFault>
    requires m_bound { (m ≤ 4096) × (4096 ≤ length objectors.old) × (4096 ≤ length targets.old) }
    requires indexed { IsIndexed index.now × (0 < m → Entered index.now.n m objectors.old targets.old) }
    ensures { ObjectionTaken index.now.numbers.now (objectors_in objectors.old)
        (targets_in objectors.old) index.now.n m objection (objectors_in objectors.new)
        (targets_in objectors.new) result
        × OnOk result (Entered index.now.n (m + 1) objectors.new targets.new) }
{
    let n = index.n;
    if m >= 4096 {
        return Err(TextFault::Objections(line_after(n, m)));
    }
    let unknown = TextFault::Unknown(line_after(n, m));
    let y = register_index::look_up_in(index, objection.objector).ok_or(unknown)?;
    let x = register_index::look_up_in(index, objection.target).ok_or(unknown)?;
    pair_repeat::begin(objectors, targets, n, m);
    if pair_repeat::pair_at(objectors, targets, n, m, y, x).is_some() {
        return Err(TextFault::Repeated(line_after(n, m)));
    }
    pair_repeat::enter(objectors, targets, n, m, y, x);
    Ok(())
}

// Reads a text that is short enough and ended, line by line, and keeps an index of the numbers. Meanwhile the rooms for objectors
// and targets hold the objections linked; at the end they hold the two lists.
fn read_lines(
    text: &[u8],
    index: &mut NumberIndex,
    marks: &mut [u8],
    objectors: &mut [u32],
    targets: &mut [u32],
) -> Result<(usize, usize), TextFault>
    requires text_len_bound { (length text.now ≤ 65535) × (¬ NotEnded text.now) }
    requires spacious { Spacious index.old.numbers.now marks.old objectors.old targets.old }
    requires indexed { (index.old.n ≡ 0) × IsIndexed index.old }
    ensures lists { ReadsTo text.now index.new.numbers.now marks.new objectors.new targets.new result }
    ensures same { SameParts index.old index.new }
{
    let mut at = 0;
    let mut m = 0;
    // The lines before `at` are a register of `index.n` statements and m objections; the rooms hold it, and its numbers are
    // indexed.
    while at < text.len() {
        let spoiled = TextFault::Spoiled(line_after(index.n, m));
        let (line, next) = register_line::reader::line_from(text, at).ok_or(spoiled)?;
        match line {
            Line::Statement(statement) => {
                take_statement(index, marks, m, statement)?;
            }
            Line::Objection(objection) => {
                take_objection(index, objectors, targets, m, objection)?;
                m += 1;
            }
        }
        at = next;
    }
    pair_repeat::unpack(objectors, targets, m);
    Ok((index.n, m))
}

// Reads a register text into rooms for 1,024 statements and 4,096 objections. Answers how many of each there are.
pub fn read(
    text: &[u8],
    numbers: &mut [u32],
    marks: &mut [u8],
    objectors: &mut [u32],
    targets: &mut [u32],
) -> Result<(usize, usize), TextFault>
    requires { Spacious numbers.old marks.old objectors.old targets.old }
    ensures { ReadsTo text.now numbers.new marks.new objectors.new
        targets.new result }
{
    if text.len() > 65535 {
        return Err(TextFault::TooLong);
    }
    if !ended(text) {
        return Err(TextFault::Unended);
    }
    let mut links = [0u16; 8200];
    let mut index = NumberIndex {
        numbers,
        links: &mut links,
        n: 0,
    };
    read_lines(text, &mut index, marks, objectors, targets)
}

// Reads a register text into rooms that are one value, and answers the lists that it makes.
pub fn read_register<'a>(
    text: &[u8],
    rooms: &'a mut RegisterRooms,
) -> Result<NumberedPairs<'a>, TextFault>
    ensures { ReadAs text.now result }
{
    let (n, m) = read(
        text,
        &mut rooms.numbers,
        &mut rooms.marks,
        &mut rooms.objectors,
        &mut rooms.targets,
    )?;
    let pairs = Pairs {
        marks: &rooms.marks[..n],
        objectors: &rooms.objectors[..m],
        targets: &rooms.targets[..m],
    };
    Ok(NumberedPairs {
        numbers: &rooms.numbers[..n],
        pairs,
    })
}
