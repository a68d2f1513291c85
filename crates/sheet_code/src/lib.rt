// A label sheet: two bits for each statement, four to a byte, and three totals beside it. Here a code is read and set, and codes
// are counted. Whether a sheet is sound is left to `sheet_check`, and a sheet is made and updated in `sheet_fill`.
#![tactic(auto)]

ghost use Rattle.std.specs.Prelude.{◌≡◌, ◌/◌, ◌<◌, ◌*◌, ◌≤◌, length};
ghost use Rattle.sheet.specs.Sheet.{code_at};
ghost use Rattle.sheet_code.specs.SheetParts.{CodeSet, Tallied};

// The code of the statement x.
pub fn code_at(sheet: &[u8], x: usize) -> u8
    requires { x / 4 < length sheet.now }
    ensures { result ≡ code_at sheet.now x }
{
    (sheet[x / 4] >> (2 * (x % 4))) & 3
}

// Sets the code of the statement x.
pub fn set_code(sheet: &mut [u8], x: usize, code: u8)
    requires { (x / 4 < length sheet.old) × (code < 4) }
    ensures { CodeSet sheet.old x code sheet.new }
{
    let at = x / 4;
    let shift = 2 * (x % 4);
    let mask: u8 = 3 << shift;
    sheet[at] = (sheet[at] & !mask) | (code << shift);
}

// How many statements have each code, 3 too, which tells whether the sheet has one.
#[tactic(auto, using(sheet::proofs::Codes::code_small, crate::proofs::Totals::total_few))]
pub fn tally(sheet: &[u8], n: usize) -> [u32; 4]
    requires { (n ≤ 1024) × (n ≤ 4 * length sheet.now) }
    ensures { Tallied sheet.now n result }
{
    let mut counts = [0; 4];
    // For each code, `counts` has how many of the first x statements have it.
    for x in 0..n {
        counts[usize::from(code_at(sheet, x))] += 1;
    }
    counts
}
