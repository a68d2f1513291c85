// The reason of a statement of a register text, written into a lent room: the statement's row of the listing, then the rows of
// the objections in its reason. Reading and labels are left to `register_solve`, what is in a reason to `reason_find`, rows to
// `listing_row`.
#![tactic(auto)]

ghost use Rattle.std.specs.Prelude.{◌≡◌, ◌<◌, length};
ghost use Rattle.register.specs.Register.{Register};
ghost use Rattle.label_solve.specs.AreLabelled.{AreLabelled};
ghost use Rattle.register_solve.specs.SolvedAs.{ReadyAs};
ghost use Rattle.room_write.specs.Writing.{RoomFor, Put};
ghost use Rattle.call_reason.specs.ReasonRows.{chosen_part, RowsWritten, ReasonWritten};
ghost use Rattle.promises.specs.ReasonCalls.{TextReason};

use answer::{Answer, Refusal};
use listing_row::{entry_size, put_entry, put_statement, statement_size};
use reason_find::choose;
use register_solve::{LabelRooms, LabelledRegister, solve_register};

// The size of the rows of the objections that have a tick.
fn rows_size(register: &LabelledRegister, inside: &[u8]) -> usize
    requires { AreLabelled register.now.labelled
        × (length inside.now ≡ length register.now.labelled.pairs.objectors.now) }
    ensures { result ≡ length (chosen_part register.now inside.now) }
{
    let mut total = 0;
    // The total is the size of the rows of those of the first k objections that have a tick.
    for (k, &tick) in inside.iter().enumerate() {
        if tick != 0 {
            total += entry_size(register, k);
        }
    }
    total
}

// Puts the rows of the objections that have a tick into the room at a place, and answers the place behind them.
fn put_rows(room: &mut [u8], at: usize, register: &LabelledRegister, inside: &[u8]) -> usize
    requires labelled { AreLabelled register.now.labelled
        × (length inside.now ≡ length register.now.labelled.pairs.objectors.now) }
    requires room_for { RoomFor room.old at (chosen_part register.now inside.now) }
    ensures { Put room.old at (chosen_part register.now inside.now) result room.new }
{
    let mut end = at;
    // From `at` to `end` the room holds the rows of those of the first k objections that have a tick.
    for (k, &tick) in inside.iter().enumerate() {
        if tick != 0 {
            end = put_entry(room, end, register, k);
        }
    }
    end
}

// Writes the reason of the statement at the place x, whose objections have their ticks, if there is room for all of it.
fn write_rows(register: &LabelledRegister, inside: &[u8], x: usize, room: &mut [u8]) -> Answer
    requires { AreLabelled register.now.labelled
        × (length inside.now ≡ length register.now.labelled.pairs.objectors.now)
        × (x < length register.now.numbers.now) }
    ensures { RowsWritten register.now inside.now x room.old result room.new }
{
    let number = register.numbers[x];
    let label = register.labelled.labels[x];
    let turns = register.labelled.lengths[x];
    let size = statement_size(number, label, turns) + rows_size(register, inside);
    if room.len() < size {
        return Err(Refusal::Room);
    }
    let end = put_statement(room, 0, number, label, turns);
    put_rows(room, end, register, inside);
    Ok(size as u32)
}

// Writes the reason of the statement of a number in a register that is labelled. `choose` is lent all ticks: tried with a part of
// them, of which a proof then knows nothing.
fn write_reason(register: &LabelledRegister, number: u32, room: &mut [u8]) -> Answer
    requires { (R : Register) × ReadyAs R register.now }
    ensures { (R : Register) → ReadyAs R register.now
        → ReasonWritten R number room.old result room.new }
{
    let x = register_index::find(register.numbers, number).ok_or(Refusal::Asked)?;
    let mut ticks = [0u8; 4096];
    choose(&register.labelled, x, &mut ticks);
    let inside = &ticks[..register.labelled.pairs.objectors.len()];
    write_rows(register, inside, x, room)
}

// The reason of the statement of a number.
pub fn text_reason(text: &[u8], number: u32, room: &mut [u8]) -> Answer
    ensures { TextReason text.now number room.old result room.new }
{
    let mut rooms = LabelRooms::empty();
    let register = solve_register(text, &mut rooms).map_err(Refusal::Text)?;
    write_reason(&register, number, room)
}
