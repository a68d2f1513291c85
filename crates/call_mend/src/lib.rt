// The public call that mends a text: the mended register and the report are written into lent rooms. What becomes of the lines
// is left to `mend_text`, and the writing to `register_write` and `mend_report`.
//
// The fates of all lines are kept meanwhile, one byte for each of up to 65,535: so repeats are searched once, the report is
// made of the fates alone, and both sizes are known before anything is written. Packed, or found again by a third pass over the
// text, they would save these bytes of stack and cost the search again.
#![tactic(auto)]

ghost use Rattle.std.specs.Prelude.{List};
ghost use Rattle.mend.specs.TextLines.{TextLine};
ghost use Rattle.promises.specs.MendCalls.{TextMend};
ghost use Rattle.call_mend.specs.MendedLists.{MendedLists, MendWritten};

use answer::{Answer, Refusal};
use lists::NumberedPairs;
use mend_text::MendedText;
use register::TextFault;
use register_read::RegisterRooms;

// Writes what a text is mended to, the register and the report of the fates, if there is room for both.
fn write_mended(
    mended: &MendedText,
    room: &mut [u8],
    report: &mut [u8],
    report_written: &mut u32,
) -> Answer
    requires { (ls : List TextLine) × MendedLists ls mended.now }
    ensures { (ls : List TextLine) → MendedLists ls mended.now → MendWritten ls
        (room.old, report.old, report_written.old) result
        (room.new, report.new, report_written.new) }
{
    let NumberedPairs { numbers, pairs } = mended.register;
    let size = register_write::register_size(numbers, pairs.objectors, pairs.targets);
    if room.len() < size {
        return Err(Refusal::Room);
    }
    let report_size = mend_report::report_size(mended.fates);
    if report.len() < report_size {
        return Err(Refusal::Room);
    }
    register_write::put_register(room, &mended.register);
    mend_report::put_report(report, mended.fates);
    *report_written = report_size as u32;
    Ok(size as u32)
}

// Mends a text. Never inlined: so the search for an equal objection is laid out alike in the program and in the libraries, and
// takes as long wherever a linker puts it (docs/DESIGN-PASS.md, Speed).
#[inline(never)]
pub fn text_mend(
    text: &[u8],
    room: &mut [u8],
    report: &mut [u8],
    report_written: &mut u32,
) -> Answer
    ensures { TextMend text.now (room.old, report.old, report_written.old) result
        (room.new, report.new, report_written.new) }
{
    if text.len() > 65535 {
        return Err(Refusal::Text(TextFault::TooLong));
    }
    let mut rooms = RegisterRooms::empty();
    let mut fates = [0; 65535];
    let mended = mend_text::settle_rooms(text, &mut rooms, &mut fates);
    write_mended(&mended, room, report, report_written)
}
