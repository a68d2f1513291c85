// The report of a mending, written into a lent room: a row for each line of a text that was dropped or moved. The fates of the
// lines, by their numbers, are found by others, and words and numbers put by `room_write`.
//
// A fate stays the number that its row ends with, one byte: up to 65,535 stand in fixed memory, with no heap.
#![tactic(auto)]

ghost use Rattle.std.specs.Prelude.{◌++◌, ◌≡◌, ◌≤◌, length, drop};
ghost use Rattle.room_write.specs.Writing.{RoomFor, Put};
ghost use Rattle.mend_report.specs.NumberedReport.{fate_field, numbered_row, numbered_report};

use room_write::{decimal_size, put_decimal, put_word};

// The size of the word of a fate, with the tabs on either side.
fn fate_size(fate: u8) -> usize
    ensures { result ≡ length (fate_field fate) }
{
    if fate == 4 { 7 } else { 9 }
}

// The size of the row of a line that was dropped or moved.
#[tactic(auto, using(crate::proofs::NumberedReport::sizes))]
fn row_size(line: u32, fate: u8) -> usize
    ensures { result ≡ length (numbered_row line fate) }
{
    decimal_size(line) + fate_size(fate) + decimal_size(u32::from(fate)) + 1
}

// How many bytes the report has. Lines are counted from 1, so the line at the place k has the number k + 1.
#[tactic(auto, using(crate::proofs::NumberedReport::sizes))]
pub fn report_size(fates: &[u8]) -> usize
    requires { length fates.now ≤ 65535 }
    ensures { result ≡ length (numbered_report fates.now) }
{
    let mut total = 0;
    // The total is the size of the rows of those of the first k lines that were dropped or moved.
    for (k, &fate) in fates.iter().enumerate() {
        if fate != 0 {
            total += row_size((k + 1) as u32, fate);
        }
    }
    total
}

// Puts the word of a fate into the room at a place, with the tabs on either side, and answers the place behind it.
fn put_fate(room: &mut [u8], at: usize, fate: u8) -> usize
    requires { RoomFor room.old at (fate_field fate) }
    ensures { Put room.old at (fate_field fate) result room.new }
{
    if fate == 4 {
        return put_word(room, at, b"\tmoved\t");
    }
    put_word(room, at, b"\tdropped\t")
}

// Puts the row of a line that was dropped or moved, and answers the place behind it.
#[tactic(auto, using(crate::proofs::NumberedReport::sizes))]
fn put_row(room: &mut [u8], at: usize, line: u32, fate: u8) -> usize
    requires { RoomFor room.old at (numbered_row line fate) }
    ensures { Put room.old at (numbered_row line fate) result room.new }
{
    let word = put_decimal(room, at, line);
    let cause = put_fate(room, word, fate);
    let row_end = put_decimal(room, cause, u32::from(fate));
    put_word(room, row_end, b"\n")
}

// Writes the report at the start of a room that is long enough.
pub fn put_report(room: &mut [u8], fates: &[u8])
    requires { (length fates.now ≤ 65535) × (length (numbered_report fates.now) ≤ length room.old) }
    ensures { room.new ≡ numbered_report fates.now
        ++ drop (length (numbered_report fates.now)) room.old }
{
    let mut end = 0;
    // Up to `end` the room holds the rows of those of the first k lines that were dropped or moved.
    for (k, &fate) in fates.iter().enumerate() {
        if fate != 0 {
            end = put_row(room, end, (k + 1) as u32, fate);
        }
    }
}
