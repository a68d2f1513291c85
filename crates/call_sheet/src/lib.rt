// The public calls that keep a label sheet beside a register text: a fresh sheet, and an old one that is updated in place.
// Reading and labels are left to `register_solve`, and the rooms that are lent to `sheet_write`.
#![tactic(auto)]

ghost use Rattle.promises.specs.SheetCalls.{TextSheet, TextSheetUpdate};

use answer::{Answer, Refusal};
use register_solve::{LabelRooms, solve_register};
use sheet_write::{fresh_rooms, update_rooms};

// A fresh sheet.
pub fn text_sheet(text: &[u8], sheet: &mut [u8], totals: &mut [u32]) -> Answer
    ensures { TextSheet text.now (sheet.old, totals.old) result
        (sheet.new, totals.new) }
{
    let mut rooms = LabelRooms::empty();
    let register = solve_register(text, &mut rooms).map_err(Refusal::Text)?;
    let n = register.numbers.len();
    fresh_rooms(&register.labelled.labels[..n], sheet, totals)
}

// The old sheet, updated.
pub fn text_sheet_update(text: &[u8], sheet: &mut [u8], totals: &mut [u32]) -> Answer
    ensures { TextSheetUpdate text.now (sheet.old, totals.old) result
        (sheet.new, totals.new) }
{
    let mut rooms = LabelRooms::empty();
    let register = solve_register(text, &mut rooms).map_err(Refusal::Text)?;
    let n = register.numbers.len();
    update_rooms(&register.labelled.labels[..n], sheet, totals)
}
