// A label sheet made afresh or updated, from labels that others have found, and its totals. How codes stand in bytes is left to
// `sheet_code`, and whether an old sheet is sound to `sheet_check`.
//
// A fresh sheet is an update of zeros, so one loop sets codes, and it sets one only where it differs: a byte without a changed
// label is not stored to. The totals are counted from the sheet, the statements of all four codes in one pass.
#![tactic(auto)]

ghost use Rattle.std.specs.Prelude.{◌≡◌, ℕ, ◌*◌, ◌≤◌, ◌<◌, get_or, length};
ghost use Rattle.answer.specs.Answer.{Begins};
ghost use Rattle.sheet.specs.Sheet.{codes, total, bytes_for};
ghost use Rattle.sheet_code.specs.SheetParts.{Coded, Codable, Spare, Filled};

use sheet_code::{code_at, set_code, tally};

// Sets the codes of the statements with these labels. One that is right already is left alone, and so is a byte of such.
fn set_codes(labels: &[u8], sheet: &mut [u8])
    requires { (length labels.now ≤ 4 * length sheet.old) × ((x : ℕ) → x < length labels.now → get_or labels.now x 0 < codes) }
    ensures { Coded (length labels.now) labels.now sheet.old sheet.new }
{
    // The first x statements have their codes, and the other codes are as they were.
    for (x, &label) in labels.iter().enumerate() {
        if code_at(sheet, x) != label {
            set_code(sheet, x, label);
        }
    }
}

// Writes the totals of a sheet of n statements, taken from the sheet.
fn write_totals(sheet: &[u8], n: usize, totals: &mut [u32])
    requires { (n ≤ 1024) × (n ≤ 4 * length sheet.now) × (codes ≤ length totals.old) }
    ensures { Begins codes (λ c e. e ≡ total sheet.now n c) totals.old totals.new }
{
    totals[..3].copy_from_slice(&tally(sheet, n)[..3]);
}

// Updates a sheet that has the right size and no spare bit set.
pub fn update(labels: &[u8], sheet: &mut [u8], totals: &mut [u32])
    requires { Codable (length labels.now) labels.now totals.old × (length sheet.old ≡ bytes_for (length labels.now))
        × Spare (length labels.now) sheet.old }
    ensures { Filled (length labels.now) labels.now sheet.new totals.old totals.new }
{
    set_codes(labels, sheet);
    write_totals(sheet, labels.len(), totals);
}

// Makes a sheet afresh, over whatever is there.
pub fn fresh(labels: &[u8], sheet: &mut [u8], totals: &mut [u32])
    requires { Codable (length labels.now) labels.now totals.old × (length sheet.old ≡ bytes_for (length labels.now)) }
    ensures { Filled (length labels.now) labels.now sheet.new totals.old totals.new }
{
    sheet.fill(0);
    update(labels, sheet, totals);
}
