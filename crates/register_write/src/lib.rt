// The register that lists hold, written back as its text into a lent room: a line for each statement, then a line for each
// objection. Which lists a register makes is left to `register`; numbers are put by `register_number`, and words by `room_write`.
#![tactic(auto)]

ghost use Rattle.std.specs.Prelude.{List, ◌++◌, ◌≡◌, ◌≤◌, ◌<◌, ℕ, length, drop};
ghost use Rattle.room_write.specs.Writing.{RoomFor, Put};
ghost use Rattle.register_write.specs.Copied.{statements_text, Copyable, objections_text, copied, mark_end, statement_bytes};
ghost use Rattle.register_write.specs.Copied.{register_statements, register_objections, register_objection, register_copied};

use lists::NumberedPairs;
use register_number::{number_size, put_number};
use room_write::put_word;

// The size of all statement lines: every mark is one byte, so the marks are not asked for.
#[tactic(auto, using(crate::proofs::Copied::sizes))]
pub fn statements_size(numbers: &[u32]) -> usize
    requires { length numbers.now ≤ 1024 }
    ensures { (marks : List ℕ) → result ≡ length (statements_text numbers.now marks) }
{
    let mut total = 0;
    // The total is the size of the lines of the numbers passed.
    for &number in numbers {
        total += number_size(number) + 5;
    }
    total
}

// The size of all objection lines.
#[tactic(auto, using(crate::proofs::Copied::sizes))]
fn objections_size(numbers: &[u32], objectors: &[u32], targets: &[u32]) -> usize
    requires { Copyable numbers.now objectors.now targets.now }
    ensures { result ≡ length (objections_text numbers.now objectors.now targets.now) }
{
    let mut total = 0;
    // The total is the size of the lines of the objections passed.
    for (&y, &x) in objectors.iter().zip(targets) {
        total += number_size(numbers[y as usize]) + number_size(numbers[x as usize]) + 4;
    }
    total
}

// How many bytes the text has. It is asked of lists, not of a register as one value: the marks are not needed, and whoever reads
// a catalogue does not have them at hand.
#[tactic(auto, using(crate::proofs::Copied::sizes))]
pub fn register_size(numbers: &[u32], objectors: &[u32], targets: &[u32]) -> usize
    requires { Copyable numbers.now objectors.now targets.now }
    ensures { (marks : List ℕ) → result ≡ length (copied numbers.now marks objectors.now
        targets.now) }
{
    statements_size(numbers) + objections_size(numbers, objectors, targets)
}

// Puts a mark and the end of its line into the room at a place, and answers the place behind it. So do the functions below with
// what they put.
fn put_mark(room: &mut [u8], at: usize, mark: u8) -> usize
    requires { RoomFor room.old at (mark_end mark) }
    ensures { Put room.old at (mark_end mark) result room.new }
{
    if mark == 0 {
        return put_word(room, at, b"\tR\n");
    }
    put_word(room, at, b"\tU\n")
}

// A statement line.
fn put_statement(room: &mut [u8], at: usize, number: u32, mark: u8) -> usize
    requires { RoomFor room.old at (statement_bytes number mark) }
    ensures { Put room.old at (statement_bytes number mark) result room.new }
{
    let number_at = put_word(room, at, b"S\t");
    let mark_at = put_number(room, number_at, number);
    put_mark(room, mark_at, mark)
}

// The line of an objection. The target is read behind the objector's number, so that it need not be kept meanwhile.
fn put_objection(room: &mut [u8], at: usize, register: &NumberedPairs, k: usize) -> usize
    requires { (k < length register.now.pairs.objectors.now) × RoomFor room.old at (register_objection register.now k) }
    ensures { Put room.old at (register_objection register.now k) result room.new }
{
    let objector = register.pairs.objectors[k] as usize;
    let objector_at = put_word(room, at, b"O\t");
    let tab = put_number(room, objector_at, register.numbers[objector]);
    let target = register.pairs.targets[k] as usize;
    let target_at = put_word(room, tab, b"\t");
    let line_end = put_number(room, target_at, register.numbers[target]);
    put_word(room, line_end, b"\n")
}

// All statement lines.
fn put_statements(room: &mut [u8], at: usize, register: &NumberedPairs) -> usize
    requires { RoomFor room.old at (register_statements register.now) }
    ensures { Put room.old at (register_statements register.now) result room.new }
{
    let mut end = at;
    // From `at` to `end` the room holds the lines of the first i statements, and elsewhere it is as it was.
    for (i, &number) in register.numbers.iter().enumerate() {
        end = put_statement(room, end, number, register.pairs.marks[i]);
    }
    end
}

// All objection lines.
fn put_objections(room: &mut [u8], at: usize, register: &NumberedPairs) -> usize
    requires { RoomFor room.old at (register_objections register.now) }
    ensures { Put room.old at (register_objections register.now) result room.new }
{
    let mut end = at;
    // From `at` to `end` the room holds the lines of the first k objections, and elsewhere it is as it was.
    for k in 0..register.pairs.objectors.len() {
        end = put_objection(room, end, register, k);
    }
    end
}

// Writes the text at the start of a room that is long enough.
pub fn put_register(room: &mut [u8], register: &NumberedPairs)
    requires { length (register_copied register.now) ≤ length room.old }
    ensures { room.new ≡ register_copied register.now ++ drop (length (register_copied register.now)) room.old }
{
    let end = put_statements(room, 0, register);
    put_objections(room, end, register);
}
