// Any text, read line by line and settled in lent rooms: first its statements, then its objections, as a line's fate depends on
// what is kept before it. What becomes of one line is left to `mend_line`, and writing the mended text to others.
//
// The fate of a line stays a number of one byte, not an enum: the fates of up to 65,535 lines stand in fixed memory, with no
// heap, and the number is the one that the report writes. Below `settle_text` numbers and their links are one value, the index;
// the other rooms are parameters of their own: some are written while others are read.
#![tactic(auto)]

mod mended_text;

ghost use Rattle.std.specs.Prelude.{cond, List, ◌≡◌, ◌≤◌, ◌<◌, ◌+◌, eqb, length, get_or, drop};
ghost use Rattle.game.specs.Questions.{FirstBelow};
ghost use Rattle.register_index.specs.IndexAt.{IsIndexed, SameParts};
ghost use Rattle.register.specs.declared.StatementLine.{StatementLine};
ghost use Rattle.register.specs.Register.{Register, Valid};
ghost use Rattle.register_read.specs.ReadState.{Holds};
ghost use Rattle.mend.specs.TextLines.{TextLine, LinesOf};
ghost use Rattle.mend_line.specs.SettledRooms.{Stated};
ghost use Rattle.pair_words.specs.Words.{objectors_in, targets_in};
ghost use Rattle.pair_repeat.specs.Entered.{Entered};
ghost use Rattle.mend_text.specs.MendedAs.{MendedAs};
ghost use Rattle.mend_text.specs.Passes.{AnyLineAt, told_if, StatementPassed, StatementRooms, StatementsSettled};
ghost use Rattle.mend_text.specs.Passes.{ObjectionRooms, ObjectionPassed, TextSettled};

use lists::{NumberedPairs, Pairs};
pub use mended_text::MendedText;
use register::Line;
use register_index::NumberIndex;
use register_read::RegisterRooms;

// A line of any text, and where the next one starts. An unended line is the last. These are three cases, and no Option or Result.
#[derive(Drop)]
pub enum AnyLine {
    Good(Line, usize),
    Spoiled(usize),
    Unended,
}

// The fate of a line, and behind it the place, and whether a statement is late there.
#[derive(Drop)]
pub struct StatementPass {
    pub fate: u8,
    pub next: usize,
    pub late: bool,
}

#[derive(Drop)]
pub struct ObjectionPass {
    pub next: usize,
    pub objections: usize,
}

// How many statements and objections are kept, and how many lines the text has.
#[derive(Drop)]
pub struct KeptCounts {
    pub statements: usize,
    pub objections: usize,
    pub lines: usize,
}

// The place of the first byte 10, if there is one. Never inlined: beside the place of its line the loop costs two steps more for
// each byte.
#[inline(never)]
fn line_end(text: &[u8]) -> Option<usize>
    ensures { FirstBelow (λ i. get_or text.now i 0 ≡ 10) (length text.now) result }
{
    text.iter().position(|&byte| byte == 10)
}

// The line that starts at a place before the end.
fn any_line(text: &[u8], at: usize) -> AnyLine
    requires { at < length text.now }
    ensures { AnyLineAt text.now at result }
{
    if let Some((line, next)) = register_line::reader::line_from(text, at) {
        return AnyLine::Good(line, next);
    }
    match line_end(&text[at..]) {
        Some(end) => AnyLine::Spoiled(at + end + 1),
        None => AnyLine::Unended,
    }
}

// The fate of a statement line: one that is late and kept is moved.
fn moved_if(late: bool, fate: u8) -> u8
    ensures { result ≡ told_if late fate }
{
    if late && fate == 0 { 4 } else { fate }
}

// How many objections are kept behind a line that was settled with this fate.
fn kept(n: usize, fate: u8) -> usize
    requires { n ≤ 4096 }
    ensures { result ≡ cond (eqb fate 0) (n + 1) n }
{
    if fate == 0 { n + 1 } else { n }
}

// Passes the line at a place while statements are settled: the fate of an objection waits.
fn pass_statement(
    text: &[u8],
    at: usize,
    index: &mut NumberIndex,
    marks: &mut [u8],
    late: bool,
) -> StatementPass
    requires at_in_bounds { (at < length text.now) × (1024 ≤ length index.old.numbers.now) × (1024 ≤ length marks.old) }
    requires indexed { IsIndexed index.old }
    ensures passed { (ls : List TextLine) (S : List StatementLine) → LinesOf (drop at text.now) ls
        → Stated S index.old.n index.old.numbers.now marks.old index.old.links.now
        → StatementPassed text.now at ls S late result index.new.n index.new.numbers.now marks.new index.new.links.now }
    ensures same { SameParts index.old index.new }
{
    match any_line(text, at) {
        AnyLine::Unended => StatementPass {
            fate: 2,
            next: text.len(),
            late,
        },
        AnyLine::Spoiled(next) => StatementPass {
            fate: 3,
            next,
            late,
        },
        AnyLine::Good(Line::Objection(_), next) => StatementPass {
            fate: 0,
            next,
            late: true,
        },
        AnyLine::Good(Line::Statement(statement), next) => {
            let fate = mend_line::settle_statement(index, marks, statement);
            StatementPass {
                fate: moved_if(late, fate),
                next,
                late,
            }
        }
    }
}

// Settles the statements of a text, line by line; the index counts those kept.
fn settle_statements(text: &[u8], index: &mut NumberIndex, marks: &mut [u8], fates: &mut [u8])
    requires text_len_bound { (length text.now ≤ 65535) × StatementRooms index.old.numbers.now marks.old fates.old }
    requires indexed { (index.old.n ≡ 0) × IsIndexed index.old }
    ensures settled { (ls : List TextLine) × StatementsSettled text.now ls index.new.n index.new.numbers.now marks.new
        index.new.links.now fates.new }
    ensures same { SameParts index.old index.new }
{
    let mut at = 0;
    let mut k = 0;
    let mut late = false;
    // The k lines before `at` have a fate, and the rooms hold those of their statements that are kept; `late` tells whether an
    // objection came. A line is as long as it is, so no iterator leads from one to the next, and k is counted beside.
    while at < text.len() {
        let pass = pass_statement(text, at, index, marks, late);
        fates[k] = pass.fate;
        at = pass.next;
        late = pass.late;
        k += 1;
    }
}

// Passes the line at a place while objections are settled, and puts the fate of an objection.
fn pass_objection(
    text: &[u8],
    at: usize,
    index: &NumberIndex,
    marks: &mut [u8],
    objectors: &mut [u32],
    targets: &mut [u32],
    fates: &mut [u8],
    k: usize,
    m: usize,
) -> ObjectionPass
    requires at_in_bounds { (at < length text.now) × (k < length fates.old) × (m ≤ 4096) × (1024 ≤ length marks.old) }
    requires objection_rooms { ObjectionRooms objectors.old targets.old × IsIndexed index.now
        × Entered index.now.n m objectors.old targets.old }
    ensures { ((ls : List TextLine) (R : Register) → LinesOf (drop at text.now) ls → Valid R
        → Holds R index.now.n m index.now.numbers.now marks.old (objectors_in objectors.old)
        (targets_in objectors.old)
        → ObjectionPassed text.now at ls R index.now.n fates.old k result index.now.numbers.now marks.new
        (objectors_in objectors.new) (targets_in objectors.new) fates.new)
        × Entered index.now.n result.objections objectors.new targets.new }
{
    match any_line(text, at) {
        AnyLine::Unended => ObjectionPass {
            next: text.len(),
            objections: m,
        },
        AnyLine::Spoiled(next) => ObjectionPass {
            next,
            objections: m,
        },
        AnyLine::Good(Line::Statement(_), next) => ObjectionPass {
            next,
            objections: m,
        },
        AnyLine::Good(Line::Objection(objection), next) => {
            let fate = mend_line::settle_objection(
                index.numbers,
                marks,
                index.links,
                objectors,
                targets,
                index.n,
                m,
                objection,
            );
            fates[k] = fate;
            ObjectionPass {
                next,
                objections: kept(m, fate),
            }
        }
    }
}

// Settles the objections of a text whose statements are settled. Meanwhile the rooms for objectors and targets hold those kept
// linked; at the end they hold the two lists.
fn settle_objections(
    text: &[u8],
    index: &NumberIndex,
    marks: &mut [u8],
    objectors: &mut [u32],
    targets: &mut [u32],
    fates: &mut [u8],
) -> KeptCounts
    requires text_len_bound { (length text.now ≤ 65535) × StatementRooms index.now.numbers.now marks.old fates.old
        × ObjectionRooms objectors.old targets.old }
    requires statements_settled { (ls : List TextLine)
        × StatementsSettled text.now ls index.now.n index.now.numbers.now marks.old index.now.links.now fates.old }
    ensures { TextSettled text.now result index.now.numbers.now marks.new objectors.new
        targets.new fates.new }
{
    let n = index.n;
    pair_repeat::begin(objectors, targets, n, 0);
    let mut at = 0;
    let mut m = 0;
    let mut k = 0;
    // The k lines before `at` have their final fate; the rooms hold the n statements and, chained, the m objections kept so far.
    // As above, k is counted beside.
    while at < text.len() {
        let pass = pass_objection(text, at, index, marks, objectors, targets, fates, k, m);
        at = pass.next;
        m = pass.objections;
        k += 1;
    }
    pair_repeat::unpack(objectors, targets, m);
    KeptCounts {
        statements: n,
        objections: m,
        lines: k,
    }
}

// Settles a text in rooms for 1,024 statements, 4,096 objections and 65,535 fates.
pub fn settle_text(
    text: &[u8],
    numbers: &mut [u32],
    marks: &mut [u8],
    objectors: &mut [u32],
    targets: &mut [u32],
    fates: &mut [u8],
) -> KeptCounts
    requires { (length text.now ≤ 65535) × StatementRooms numbers.old marks.old fates.old
        × ObjectionRooms objectors.old targets.old }
    ensures { TextSettled text.now result numbers.new marks.new objectors.new
        targets.new fates.new }
{
    let mut links = [0u16; 8200];
    let mut index = NumberIndex {
        numbers,
        links: &mut links,
        n: 0,
    };
    settle_statements(text, &mut index, marks, fates);
    settle_objections(text, &index, marks, objectors, targets, fates)
}

// Mends a text in rooms for a register, which are one value, and a room for 65,535 fates.
pub fn settle_rooms<'a>(
    text: &[u8],
    rooms: &'a mut RegisterRooms,
    fates: &'a mut [u8],
) -> MendedText<'a>
    requires { (length text.now ≤ 65535) × (65535 ≤ length fates.old) }
    ensures { MendedAs text.now result }
{
    let KeptCounts {
        statements,
        objections,
        lines,
    } = settle_text(
        text,
        &mut rooms.numbers,
        &mut rooms.marks,
        &mut rooms.objectors,
        &mut rooms.targets,
        fates,
    );
    let pairs = Pairs {
        marks: &rooms.marks[..statements],
        objectors: &rooms.objectors[..objections],
        targets: &rooms.targets[..objections],
    };
    let register = NumberedPairs {
        numbers: &rooms.numbers[..statements],
        pairs,
    };
    let fates = &fates[..lines];
    MendedText { register, fates }
}
