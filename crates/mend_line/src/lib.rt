// One line of a text that is mended, settled in the lent rooms: a statement among those kept before it, or an objection among
// all statements kept and the objections kept before it. Each function answers the number of the line's fate: 0 kept, else the
// cause for which it is dropped. Reading the lines is left to `mend_text`.
//
// A fate stays a number of one byte, not an enum: the fates of up to 65,535 lines stand in fixed memory, with no heap, and the
// number is the one that the report writes. Where a statement is entered, numbers and their links are one value, the index; the
// other rooms stay parameters of their own: some are written while others are read.
#![tactic(auto)]

ghost use Rattle.std.specs.Prelude.{cond, ◌≡◌, ◌≤◌, ◌+◌, eqb, length};
ghost use Rattle.register_index.specs.Indexed.{Indexed};
ghost use Rattle.register_index.specs.IndexAt.{IsIndexed, SameParts};
ghost use Rattle.pair_words.specs.Words.{objectors_in, targets_in};
ghost use Rattle.pair_repeat.specs.Entered.{Entered};
ghost use Rattle.mend_line.specs.SettledRooms.{StatementSettled, ObjectionSettled};

use register::{ObjectionLine, StatementLine};
use register_index::NumberIndex;

// Settles a statement after those kept: 5 marks the first one unread, 6, or kept.
pub fn settle_statement(index: &mut NumberIndex, marks: &mut [u8], statement: StatementLine) -> u8
    requires rooms { (1024 ≤ length index.old.numbers.now) × (1024 ≤ length marks.old) }
    requires indexed { IsIndexed index.old }
    ensures settled { StatementSettled index.old.numbers.now marks.old index.old.n statement result
        index.new.numbers.now marks.new index.new.links.now }
    ensures count { index.new.n ≡ cond (eqb result 0) (index.old.n + 1) index.old.n }
    ensures same { SameParts index.old index.new }
{
    let n = index.n;
    let StatementLine { number, mark } = statement;
    if let Some(first) = register_index::look_up_in(index, number) {
        marks[first] = 1;
        return 5;
    }
    if n >= 1024 {
        return 6;
    }
    register_index::enter(index, number);
    marks[n] = register_line::mark_number(mark);
    0
}

// Settles an objection after n statements and m objections kept: 7 or 9 marks a listed target unread, 8, or kept.
pub fn settle_objection(
    numbers: &[u32],
    marks: &mut [u8],
    links: &[u16],
    objectors: &mut [u32],
    targets: &mut [u32],
    n: usize,
    m: usize,
    objection: ObjectionLine,
) -> u8
    requires m_bound { (m ≤ 4096) × (1024 ≤ length marks.old) × (4096 ≤ length objectors.old) × (4096 ≤ length targets.old) }
    requires indexed { Indexed numbers.now n links.now × Entered n m objectors.old targets.old }
    ensures { ObjectionSettled numbers.now marks.old (objectors_in objectors.old)
        (targets_in objectors.old) n m objection result marks.new (objectors_in objectors.new)
        (targets_in objectors.new) × Entered n (cond (eqb result 0) (m + 1) m) objectors.new targets.new }
{
    let ObjectionLine { objector, target } = objection;
    let Some(x) = register_index::look_up(numbers, n, links, target) else {
        return 7;
    };
    let Some(y) = register_index::look_up(numbers, n, links, objector) else {
        marks[x] = 1; // whether its objector stands, nobody can tell
        return 7;
    };
    // Not `is_some`: the loop that LLVM makes of that takes half as long again at every second place where a linker may put it.
    if pair_repeat::pair_at(objectors, targets, n, m, y, x).unwrap_or(m) < m {
        return 8;
    }
    if m >= 4096 {
        marks[x] = 1; // what is past the limit still speaks against it
        return 9;
    }
    pair_repeat::enter(objectors, targets, n, m, y, x);
    0
}
