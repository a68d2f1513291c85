// Whether an old label sheet is sound: it has the register's size, no 3 and no spare bit set, and its own totals beside it. How
// codes stand in bytes is left to `sheet_code`.
#![tactic(auto)]

ghost use Rattle.std.specs.Prelude.{◌≤◌, length};
ghost use Rattle.game.specs.Questions.{Decides};
ghost use Rattle.sheet.specs.Sheet.{codes, SoundSheet};
ghost use Rattle.sheet_code.specs.SheetParts.{Spare, Own};

use sheet_code::{code_at, tally};

// Whether no bit is set beyond the n statements.
fn spare_clear(sheet: &[u8], n: usize) -> bool
    requires { length sheet.now ≤ 256 }
    ensures { Decides (Spare n sheet.now) result }
{
    (n..4 * sheet.len()).all(|x| code_at(sheet, x) == 0)
}

// Whether the totals are the counts, as far as they are handed over.
fn own_totals(counts: &[u32], totals: &[u32]) -> bool
    requires { codes ≤ length counts.now }
    ensures { Decides (Own counts.now totals.now) result }
{
    counts[..3]
        .iter()
        .zip(totals)
        .all(|(count, total)| count == total)
}

// Whether this is a sheet of n statements, with its own totals beside it.
pub fn is_sound(sheet: &[u8], totals: &[u32], n: usize) -> bool
    requires { n ≤ 1024 }
    ensures { Decides (SoundSheet n sheet.now totals.now) result }
{
    if sheet.len() != (n + 3) / 4 {
        return false;
    }
    if !spare_clear(sheet, n) {
        return false;
    }
    let counts = tally(sheet, n);
    counts[3] == 0 && own_totals(&counts, totals)
}
