// The catalogue: read line by line into lent rooms, as the register that its lines make, or refused with its number and line.
// What is accepted and what is refused, `catalogue` says; numbers are left to `register_number`, and how long the old form is to
// `register_write`.
//
// A line may name a number before the line that lists it: so the objectors are kept by number until all lines are read, and then
// each is looked up. The rooms for objectors and targets hold what fits; the others are only counted, since a fault of a later
// field comes before there being too many.
#![tactic(auto)]

ghost use Rattle.std.specs.Prelude.{List, ◌≡◌, ◌≤◌, ◌<◌, ◌+◌, ℕ, length, set, get_or, MatchOption, MatchResult};
ghost use Rattle.register_index.specs.IndexAt.{IsIndexed, SameParts};
ghost use Rattle.register.specs.Reads.{NotEnded};
ghost use Rattle.catalogue.specs.Cards.{Card};
ghost use Rattle.register_read.specs.ReadState.{Spacious, InStep, CountedOn, Absent};
ghost use Rattle.catalogue_read.specs.CatalogueReadAs.{CatalogueReadAs};
ghost use Rattle.catalogue_read.specs.CatalogueState.{HeadAt, FieldsAt, CardAt, CardTaken, Filed, FirstLine, PlacedAt};
ghost use Rattle.catalogue_read.specs.CatalogueState.{Twice, InLine, SettledAs, CatalogueReadsTo};

use lists::{NumberedPairs, Pairs};
use register::{StatementLine, TextFault};
use register_index::NumberIndex;
use register_number::{byte_at, number_at};
use register_read::RegisterRooms;

// The number of the line after n others.
fn line_after(n: usize) -> u32
    requires { n ≤ 1024 }
    ensures { result ≡ n + 1 }
{
    (n + 1) as u32
}

// What stands on a line before its objectors: `S`, tab, number, tab, mark. Answers the statement, and the place behind its mark.
fn head_at(text: &[u8], at: usize) -> Option<(StatementLine, usize)>
    requires { at < length text.now }
    ensures { HeadAt text.now at result }
{
    if byte_at(text, at) != 83 {
        return None;
    }
    if byte_at(text, at + 1) != 9 {
        return None;
    }
    let (number, end) = number_at(text, at + 2)?;
    if byte_at(text, end) != 9 {
        return None;
    }
    let mark = register_line::mark_of(byte_at(text, end + 1))?;
    Some((StatementLine { number, mark }, end + 2))
}

// Puts a value at a place of a room, if the room reaches so far.
fn put(room: &mut [u32], k: usize, value: u32)
    ensures { room.new ≡ set room.old k value }
{
    if k >= room.len() {
        return;
    }
    room[k] = value;
}

// The objectors of a line, after m others, each behind a tab, to the end of the line. The statement's place is n. Answers how
// many objectors all lines have named by now, and where the next line starts.
fn fields_at(
    text: &[u8],
    at: usize,
    objectors: &mut [u32],
    targets: &mut [u32],
    n: usize,
    m: usize,
) -> Option<(usize, usize)>
    requires { (length text.now ≤ 65535) × (at ≤ length text.now) × (n ≤ 1024) × (m ≤ 4096) }
    ensures { FieldsAt text.now at n m objectors.old targets.old
        objectors.new targets.new result }
{
    let target = n as u32;
    let mut end = at;
    let mut count = m;
    // From `at` to `end` stand fields, each an objector, and with them the rooms hold `count`, as far as they reach.
    while byte_at(text, end) == 9 {
        let (number, next) = number_at(text, end + 1)?;
        put(objectors, count, number);
        put(targets, count, target);
        count += 1;
        end = next;
    }
    if byte_at(text, end) != 10 {
        return None;
    }
    Some((count, end + 1))
}

// A line: a statement, and its objectors after m others. Answers the statement, and what `fields_at` answers.
fn card_at(
    text: &[u8],
    at: usize,
    objectors: &mut [u32],
    targets: &mut [u32],
    n: usize,
    m: usize,
) -> Option<(StatementLine, usize, usize)>
    requires { (length text.now ≤ 65535) × (at < length text.now) × (n ≤ 1024) × (m ≤ 4096) }
    ensures { CardAt text.now at n m objectors.old targets.old
        objectors.new targets.new result }
{
    let (statement, end) = head_at(text, at)?;
    let (count, next) = fields_at(text, end, objectors, targets, n, m)?;
    Some((statement, count, next))
}

// Takes the statement of a line after n others, with which there are `count` objectors: 6, 5, 9, or kept.
fn take_card(
    index: &mut NumberIndex,
    marks: &mut [u8],
    count: usize,
    statement: StatementLine,
) -> Result<(), TextFault>
    requires room { (1024 ≤ length index.old.numbers.now) × (1024 ≤ length marks.old) }
    requires indexed { IsIndexed index.old }
    ensures taken { CardTaken index.old.numbers.now marks.old index.old.n count statement index.new.numbers.now marks.new result }
    ensures in_step { InStep index.new.numbers.now index.old.n index.new.links.now result }
    ensures count { CountedOn index.old.n index.new.n result }
    ensures same { SameParts index.old index.new }
{
    let n = index.n;
    if n >= 1024 {
        return Err(TextFault::Statements(line_after(n)));
    }
    let StatementLine { number, mark } = statement;
    if register_index::look_up_in(index, number).is_some() {
        return Err(TextFault::Issued(line_after(n)));
    }
    if count > 4096 {
        return Err(TextFault::Objections(line_after(n)));
    }
    register_index::enter(index, number);
    marks[n] = register_line::mark_number(mark);
    Ok(())
}

// Turns the objectors' numbers into places, or answers the earliest line that names a number which none lists.
fn place_objectors(index: &NumberIndex, objectors: &mut [u32], targets: &[u32]) -> Result<(), u32>
    requires { IsIndexed index.now × InLine targets.now (length objectors.old) }
    ensures { MatchResult result
        (λ _. (j : ℕ) → j < length objectors.old → PlacedAt index.now.numbers.now index.now.n objectors.old objectors.new j)
        (FirstLine (λ j. PlacedAt index.now.numbers.now index.now.n objectors.old objectors.new j)
        (λ j. Absent index.now.numbers.now index.now.n (get_or objectors.old j 0)) targets.now (length objectors.old)) }
{
    // The first k objectors are places; the others are still numbers.
    for k in 0..objectors.len() {
        let x = targets[k] as usize;
        let Some(y) = register_index::look_up_in(index, objectors[k]) else {
            return Err(line_after(x));
        };
        objectors[k] = y as u32;
    }
    Ok(())
}

// The earliest line that names an objector twice, if one does. `last` has an entry for each statement, the last line that named
// it, and 0, the number of no line, at first: an Option would take twice the room.
fn repeat_line(objectors: &[u32], targets: &[u32], last: &mut [u32]) -> Option<u32>
    requires in_line { InLine targets.now (length objectors.now) }
    requires places { (k : ℕ) → k < length objectors.now → get_or objectors.now k 0 < length last.old }
    requires none_named { (y : ℕ) → get_or last.old y 0 ≡ 0 }
    ensures { MatchOption result ((j : ℕ) → j < length objectors.now → ¬ Twice objectors.now targets.now j)
        (FirstLine (λ j. ¬ Twice objectors.now targets.now j)
        (λ j. Twice objectors.now targets.now j) targets.now (length objectors.now)) }
{
    // None of the first k is named twice on a line, and `last` has for each statement the last line that named it.
    for (k, &y) in objectors.iter().enumerate() {
        let line = targets[k] + 1;
        if last[y as usize] == line {
            return Some(line);
        }
        last[y as usize] = line;
    }
    None
}

// What is asked over all lines: 7, then 8, then whether the old form is too long. Leaves the objectors by place.
fn settle(index: &NumberIndex, objectors: &mut [u32], targets: &[u32]) -> Result<(), TextFault>
    requires filed { (cs : List Card) × Filed cs index.now.n (length objectors.old) index.now.numbers.now objectors.old
        targets.now }
    requires indexed { IsIndexed index.now × (length targets.now ≡ length objectors.old) }
    ensures { (cs : List Card)
        → Filed cs index.now.n (length objectors.old) index.now.numbers.now objectors.old targets.now
        → SettledAs cs objectors.new result }
{
    if let Err(line) = place_objectors(index, objectors, targets) {
        return Err(TextFault::Unknown(line));
    }
    let mut last = [0u32; 1024];
    if let Some(line) = repeat_line(objectors, targets, &mut last) {
        return Err(TextFault::Repeated(line));
    }
    if register_write::register_size(&index.numbers[..index.n], objectors, targets) > 65535 {
        return Err(TextFault::TooLong);
    }
    Ok(())
}

// Reads a text that is short enough and ended, line by line, and keeps an index of the numbers; then settles what is asked over
// all lines.
fn read_cards(
    text: &[u8],
    index: &mut NumberIndex,
    marks: &mut [u8],
    objectors: &mut [u32],
    targets: &mut [u32],
) -> Result<(usize, usize), TextFault>
    requires ended { (length text.now ≤ 65535) × (¬ NotEnded text.now) }
    requires spacious { Spacious index.old.numbers.now marks.old objectors.old targets.old }
    requires indexed { (index.old.n ≡ 0) × IsIndexed index.old }
    ensures lists { CatalogueReadsTo text.now index.new.numbers.now marks.new objectors.new targets.new result }
    ensures same { SameParts index.old index.new }
{
    let mut at = 0;
    let mut m = 0;
    // The lines before `at` are `index.n` sound cards with m objectors; the rooms hold them, and their numbers are indexed.
    while at < text.len() {
        let spoiled = TextFault::Spoiled(line_after(index.n));
        let (statement, count, next) = card_at(text, at, objectors, targets, index.n, m).ok_or(
            spoiled,
        )?;
        take_card(index, marks, count, statement)?;
        m = count;
        at = next;
    }
    settle(index, &mut objectors[..m], &targets[..m])?;
    Ok((index.n, m))
}

// Reads a catalogue into rooms for 1,024 statements and 4,096 objections. Answers how many of each there are.
pub fn read(
    text: &[u8],
    numbers: &mut [u32],
    marks: &mut [u8],
    objectors: &mut [u32],
    targets: &mut [u32],
) -> Result<(usize, usize), TextFault>
    requires { Spacious numbers.old marks.old objectors.old targets.old }
    ensures { CatalogueReadsTo text.now numbers.new marks.new objectors.new
        targets.new result }
{
    if text.len() > 65535 {
        return Err(TextFault::TooLong);
    }
    if !register_read::ended(text) {
        return Err(TextFault::Unended);
    }
    let mut links = [0u16; 8200];
    let mut index = NumberIndex {
        numbers,
        links: &mut links,
        n: 0,
    };
    read_cards(text, &mut index, marks, objectors, targets)
}

// Reads a catalogue into rooms that are one value, and answers the lists that it makes. Not one with that of `register_read`: a
// function that took what reads the lines would have to take its promise as well, and be longer than both.
pub fn read_catalogue<'a>(
    text: &[u8],
    rooms: &'a mut RegisterRooms,
) -> Result<NumberedPairs<'a>, TextFault>
    ensures { CatalogueReadAs text.now result }
{
    let (n, m) = read(
        text,
        &mut rooms.numbers,
        &mut rooms.marks,
        &mut rooms.objectors,
        &mut rooms.targets,
    )?;
    let pairs = Pairs {
        marks: &rooms.marks[..n],
        objectors: &rooms.objectors[..m],
        targets: &rooms.targets[..m],
    };
    Ok(NumberedPairs {
        numbers: &rooms.numbers[..n],
        pairs,
    })
}
