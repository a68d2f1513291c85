// The rows of a listing, written into a lent room: the header, that of a statement, that of an objection, and the line of a
// refusal; and the row of an entry of lists that are labelled. Which rows a listing has is left to `listing_write`.
#![tactic(auto)]

ghost use Rattle.std.specs.Prelude.{◌++◌, ◌≡◌, ◌<◌, ◌≤◌, length, drop};
ghost use Rattle.game.specs.Account.{kind_account};
ghost use Rattle.room_write.specs.Writing.{RoomFor, Put};
ghost use Rattle.label_solve.specs.AreLabelled.{AreLabelled};
ghost use Rattle.listing_row.specs.RegisterRows.{entry_row};
ghost use Rattle.register.specs.Texts.{decimal};
ghost use Rattle.listing.specs.Rows.{account_fields, statement_row, objection_row, header, numbers_row, refused_row};
ghost use Rattle.listing_row.specs.Said.{account_said};

use game::Kind;
use label_kind::kind_at;
use register_number::{number_size, put_number};
use register_solve::LabelledRegister;
use room_write::{decimal_size, put_decimal, put_word};

// The size of a label and its length, with the tab between them.
#[tactic(auto, using(register::proofs::Digits::ten_digits))]
fn verdict_size(label: u8, turns: u16) -> usize
    ensures { result ≡ length (account_fields (account_said label turns)) }
{
    match label {
        2 => 6 + decimal_size(turns as u32),
        1 => 7 + decimal_size(turns as u32),
        _ => 6,
    }
}

// The size of a kind and its length, with the tab between them.
#[tactic(auto, using(register::proofs::Digits::ten_digits))]
fn kind_size(kind: Kind) -> usize
    ensures { result ≡ length (account_fields (kind_account kind)) }
{
    match kind {
        Kind::Idle => 6,
        Kind::Felling(turns) => 8 + decimal_size(turns as u32),
        Kind::Delaying(turns) => 9 + decimal_size(turns as u32),
        Kind::Standoff => 10,
    }
}

// The size of a statement's row.
#[tactic(auto, using(crate::proofs::RowSizes::row_sizes))]
pub fn statement_size(number: u32, label: u8, turns: u16) -> usize
    ensures { result ≡ length (statement_row number (account_said label turns)) }
{
    number_size(number) + 1 + verdict_size(label, turns) + 1
}

#[tactic(auto, using(crate::proofs::RowSizes::row_sizes))]
pub fn objection_size(objector: u32, target: u32, kind: Kind) -> usize
    ensures { result ≡ length (objection_row objector target (kind_account kind)) }
{
    number_size(objector) + 1 + number_size(target) + 1 + kind_size(kind) + 1
}

#[tactic(auto, using(register::proofs::Digits::ten_digits, listing::proofs::Rows::header_length))]
pub fn header_size(statements: u32, objections: u32) -> usize
    ensures { result ≡ length (header statements objections) }
{
    9 + decimal_size(statements) + 1 + decimal_size(objections) + 1
}

// Puts a word and a number into the room at a place, and answers the place behind them. So do the functions below with what
// they put.
fn put_counted(room: &mut [u8], at: usize, word: &[u8], turns: u16) -> usize
    requires { RoomFor room.old at (word.now ++ decimal turns) }
    ensures { Put room.old at (word.now ++ decimal turns) result room.new }
{
    let end = put_word(room, at, word);
    put_decimal(room, end, turns as u32)
}

// A label and its length, with the tab between them.
fn put_verdict(room: &mut [u8], at: usize, label: u8, turns: u16) -> usize
    requires { RoomFor room.old at (account_fields (account_said label turns)) }
    ensures { Put room.old at (account_fields (account_said label turns)) result room.new }
{
    match label {
        2 => put_counted(room, at, b"falls\t", turns),
        1 => put_counted(room, at, b"stands\t", turns),
        _ => put_word(room, at, b"open\t-"),
    }
}

// A kind and its length, with the tab between them.
fn put_kind(room: &mut [u8], at: usize, kind: Kind) -> usize
    requires { RoomFor room.old at (account_fields (kind_account kind)) }
    ensures { Put room.old at (account_fields (kind_account kind)) result room.new }
{
    match kind {
        Kind::Idle => put_word(room, at, b"idle\t-"),
        Kind::Felling(turns) => put_counted(room, at, b"felling\t", turns),
        Kind::Delaying(turns) => put_counted(room, at, b"delaying\t", turns),
        Kind::Standoff => put_word(room, at, b"standoff\t-"),
    }
}

// A statement's row.
#[tactic(auto, using(crate::proofs::RowSizes::row_sizes))]
pub fn put_statement(room: &mut [u8], at: usize, number: u32, label: u8, turns: u16) -> usize
    requires { RoomFor room.old at (statement_row number (account_said label turns)) }
    ensures { Put room.old at (statement_row number (account_said label turns)) result room.new }
{
    let tab = put_number(room, at, number);
    let verdict = put_word(room, tab, b"\t");
    let statement_end = put_verdict(room, verdict, label, turns);
    put_word(room, statement_end, b"\n")
}

#[tactic(auto, using(crate::proofs::RowSizes::row_sizes))]
pub fn put_objection(room: &mut [u8], at: usize, objector: u32, target: u32, kind: Kind) -> usize
    requires { RoomFor room.old at (objection_row objector target (kind_account kind)) }
    ensures { Put room.old at (objection_row objector target (kind_account kind)) result room.new }
{
    let first_tab = put_number(room, at, objector);
    let against = put_word(room, first_tab, b"\t");
    let second_tab = put_number(room, against, target);
    let fields = put_word(room, second_tab, b"\t");
    let objection_end = put_kind(room, fields, kind);
    put_word(room, objection_end, b"\n")
}

// A word and two numbers.
#[tactic(auto, using(listing::proofs::Rows::numbers_length))]
fn put_numbers(room: &mut [u8], at: usize, word: &[u8], first: u32, second: u32) -> usize
    requires { RoomFor room.old at (numbers_row word.now first second) }
    ensures { Put room.old at (numbers_row word.now first second) result room.new }
{
    let first_tab = put_word(room, at, word);
    let first_at = put_word(room, first_tab, b"\t");
    let second_tab = put_decimal(room, first_at, first);
    let second_at = put_word(room, second_tab, b"\t");
    let end = put_decimal(room, second_at, second);
    put_word(room, end, b"\n")
}

pub fn put_header(room: &mut [u8], at: usize, statements: u32, objections: u32) -> usize
    requires { RoomFor room.old at (header statements objections) }
    ensures { Put room.old at (header statements objections) result room.new }
{
    put_numbers(room, at, b"REGISTER", statements, objections)
}

// Writes the line of a refusal at the start of a room, and answers how many bytes it has.
#[tactic(auto, using(listing::proofs::Rows::refused_small))]
pub fn write_refusal(number: u32, place: u32, room: &mut [u8]) -> usize
    requires { 64 ≤ length room.old }
    ensures { (result ≡ length (refused_row number place)) ×
        (room.new ≡ refused_row number place ++ drop (length (refused_row number place)) room.old) }
{
    put_numbers(room, 0, b"REFUSED", number, place)
}

// The size of the row of the objection k.
pub fn entry_size(register: &LabelledRegister, k: usize) -> usize
    requires { AreLabelled register.now.labelled × (k < length register.now.labelled.pairs.objectors.now) }
    ensures { result ≡ length (entry_row register.now k) }
{
    let y = register.labelled.pairs.objectors[k] as usize;
    let x = register.labelled.pairs.targets[k] as usize;
    let kind = kind_at(&register.labelled, k);
    objection_size(register.numbers[y], register.numbers[x], kind)
}

// The row of the objection k.
pub fn put_entry(room: &mut [u8], at: usize, register: &LabelledRegister, k: usize) -> usize
    requires are_labelled { AreLabelled register.now.labelled × (k < length register.now.labelled.pairs.objectors.now) }
    requires room_for { RoomFor room.old at (entry_row register.now k) }
    ensures { Put room.old at (entry_row register.now k) result room.new }
{
    let y = register.labelled.pairs.objectors[k] as usize;
    let x = register.labelled.pairs.targets[k] as usize;
    let kind = kind_at(&register.labelled, k);
    put_objection(room, at, register.numbers[y], register.numbers[x], kind)
}
