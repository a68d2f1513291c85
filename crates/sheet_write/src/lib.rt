// A label sheet and its totals in two lent rooms: written afresh, or updated, if the rooms are long enough and hold what they
// have to. What is on a sheet is left to `sheet_code` and the crates upon it, and the labels to others.
#![tactic(auto)]

ghost use Rattle.std.specs.Prelude.{◌≤◌, length};
ghost use Rattle.game.specs.Book.{Book};
ghost use Rattle.sheet_code.specs.SheetParts.{LabelsOf};
ghost use Rattle.sheet_write.specs.SheetWrite.{SheetWritten, SheetUpdated};

use answer::{Answer, Refusal};

// Writes the sheet of the statements with these labels, and its totals, if there is room for both.
pub fn fresh_rooms(labels: &[u8], sheet: &mut [u8], totals: &mut [u32]) -> Answer
    requires { (length labels.now ≤ 1024) × ((B : Book) × LabelsOf B (length labels.now) labels.now) }
    ensures { (B : Book) → LabelsOf B (length labels.now) labels.now → SheetWritten B (sheet.old, totals.old) result
        (sheet.new, totals.new) }
{
    let size = (labels.len() + 3) / 4;
    if sheet.len() < size {
        return Err(Refusal::Room);
    }
    if totals.len() < 3 {
        return Err(Refusal::Room);
    }
    sheet_fill::fresh(labels, &mut sheet[..size], totals);
    Ok(size as u32)
}

// Updates the sheet of the statements with these labels, and its totals, if that is what the rooms hold.
pub fn update_rooms(labels: &[u8], sheet: &mut [u8], totals: &mut [u32]) -> Answer
    requires { (length labels.now ≤ 1024) × ((B : Book) × LabelsOf B (length labels.now) labels.now) }
    ensures { (B : Book) → LabelsOf B (length labels.now) labels.now → SheetUpdated B (sheet.old, totals.old) result
        (sheet.new, totals.new) }
{
    if !sheet_check::is_sound(sheet, totals, labels.len()) {
        return Err(Refusal::Sheet);
    }
    if totals.len() < 3 {
        return Err(Refusal::Room);
    }
    sheet_fill::update(labels, sheet, totals);
    Ok(sheet.len() as u32)
}
