// What C calls, by the names of include/batqemulo.h. Each function only turns the answer of a call into two numbers. None of it
// asks anything of its caller. What other Rattle programs call is named in `batqemulo`.
#![tactic(auto)]

ghost use Rattle.answer.specs.InC.{InC};
ghost use Rattle.promises.specs.LabelCalls.{PairsLabels, PairsLengths, MovesLabels, MovesLengths, TextLabels, TextLengths};
ghost use Rattle.promises.specs.KindCalls.{PairsKinds};
ghost use Rattle.promises.specs.ArgumentCalls.{PairsArgument, TextArgument};
ghost use Rattle.promises.specs.ExerciseCalls.{PairsExercise, TextExercise};
ghost use Rattle.promises.specs.ListingCalls.{TextListing};
ghost use Rattle.promises.specs.ReasonCalls.{TextReason};
ghost use Rattle.promises.specs.SheetCalls.{TextSheet, TextSheetUpdate};
ghost use Rattle.promises.specs.MendCalls.{TextMend};
ghost use Rattle.promises.specs.NumberCalls.{NumberCode, NumberText};
ghost use Rattle.promises.specs.CatalogueCalls.{TextCatalogue, CatalogueText};

use answer::CAnswer;
use answer_number::in_c;

// The code of a number.
#[unsafe(no_mangle)]
pub extern "C" fn batqemulo_number(written: &[u8]) -> CAnswer
    ensures { InC (NumberCode written.now) result }
{
    in_c(call_number::number_code(written))
}

// How the number of a code is written.
#[unsafe(no_mangle)]
pub extern "C" fn batqemulo_number_text(number: u32, room: &mut [u8]) -> CAnswer
    ensures { InC (λ a. NumberText number room.old a room.new) result }
{
    in_c(call_number::number_text(number, room))
}

// Labels of pairs.
#[unsafe(no_mangle)]
pub extern "C" fn batqemulo_pairs_labels(
    marks: &[u8],
    objectors: &[u32],
    targets: &[u32],
    labels: &mut [u8],
) -> CAnswer
    ensures { InC (λ a. PairsLabels marks.now objectors.now targets.now
        labels.old a labels.new) result }
{
    in_c(call_labels_lists::pairs_labels(marks, objectors, targets, labels))
}

// Lengths of pairs.
#[unsafe(no_mangle)]
pub extern "C" fn batqemulo_pairs_lengths(
    marks: &[u8],
    objectors: &[u32],
    targets: &[u32],
    lengths: &mut [u16],
) -> CAnswer
    ensures { InC (λ a. PairsLengths marks.now objectors.now targets.now
        lengths.old a lengths.new) result }
{
    in_c(call_labels_lists::pairs_lengths(marks, objectors, targets, lengths))
}

// Kinds and lengths of the objections of pairs.
#[unsafe(no_mangle)]
pub extern "C" fn batqemulo_pairs_kinds(
    marks: &[u8],
    objectors: &[u32],
    targets: &[u32],
    kinds: &mut [u8],
    lengths: &mut [u16],
) -> CAnswer
    ensures { InC (λ a. PairsKinds marks.now objectors.now targets.now
        (kinds.old, lengths.old) a (kinds.new, lengths.new)) result }
{
    in_c(call_kinds::pairs_kinds(marks, objectors, targets, kinds, lengths))
}

// Labels of moves.
#[unsafe(no_mangle)]
pub extern "C" fn batqemulo_moves_labels(
    marks: &[u8],
    from: &[u32],
    to: &[u32],
    labels: &mut [u8],
) -> CAnswer
    ensures { InC (λ a. MovesLabels marks.now from.now to.now labels.old a
        labels.new) result }
{
    in_c(call_labels_lists::moves_labels(marks, from, to, labels))
}

// Lengths of moves.
#[unsafe(no_mangle)]
pub extern "C" fn batqemulo_moves_lengths(
    marks: &[u8],
    from: &[u32],
    to: &[u32],
    lengths: &mut [u16],
) -> CAnswer
    ensures { InC (λ a. MovesLengths marks.now from.now to.now lengths.old a
        lengths.new) result }
{
    in_c(call_labels_lists::moves_lengths(marks, from, to, lengths))
}

// Labels of a register text.
#[unsafe(no_mangle)]
pub extern "C" fn batqemulo_text_labels(text: &[u8], labels: &mut [u8]) -> CAnswer
    ensures { InC (λ a. TextLabels text.now labels.old a labels.new) result }
{
    in_c(call_labels_text::text_labels(text, labels))
}

// Lengths of a register text.
#[unsafe(no_mangle)]
pub extern "C" fn batqemulo_text_lengths(text: &[u8], lengths: &mut [u16]) -> CAnswer
    ensures { InC (λ a. TextLengths text.now lengths.old a lengths.new) result }
{
    in_c(call_labels_text::text_lengths(text, lengths))
}

// The listing of a text.
#[unsafe(no_mangle)]
pub extern "C" fn batqemulo_listing(text: &[u8], room: &mut [u8]) -> CAnswer
    ensures { InC (λ a. TextListing text.now room.old a room.new) result }
{
    in_c(call_listing::text_listing(text, room))
}

// The line of argument in pairs.
#[unsafe(no_mangle)]
pub extern "C" fn batqemulo_pairs_line(
    marks: &[u8],
    objectors: &[u32],
    targets: &[u32],
    place: u32,
    line: &mut [u32],
) -> CAnswer
    ensures { InC (λ a. PairsArgument marks.now objectors.now targets.now place
        line.old a line.new) result }
{
    in_c(call_argument::pairs_line(marks, objectors, targets, place, line))
}

// The class exercise on pairs.
#[unsafe(no_mangle)]
pub extern "C" fn batqemulo_pairs_exercise(
    marks: &[u8],
    objectors: &[u32],
    targets: &[u32],
    place: u32,
    turns: u32,
) -> CAnswer
    ensures { InC (PairsExercise marks.now objectors.now targets.now place turns) result }
{
    in_c(call_exercise::pairs_exercise(marks, objectors, targets, place, turns))
}

// The line of argument in a text.
#[unsafe(no_mangle)]
pub extern "C" fn batqemulo_text_line(text: &[u8], number: u32, line: &mut [u32]) -> CAnswer
    ensures { InC (λ a. TextArgument text.now number line.old a line.new) result }
{
    in_c(call_argument::text_line(text, number, line))
}

// The class exercise on a text.
#[unsafe(no_mangle)]
pub extern "C" fn batqemulo_text_exercise(text: &[u8], number: u32, turns: u32) -> CAnswer
    ensures { InC (TextExercise text.now number turns) result }
{
    in_c(call_exercise::text_exercise(text, number, turns))
}

// The reason of a statement of a text.
#[unsafe(no_mangle)]
pub extern "C" fn batqemulo_reason(text: &[u8], number: u32, room: &mut [u8]) -> CAnswer
    ensures { InC (λ a. TextReason text.now number room.old a room.new) result }
{
    in_c(call_reason::text_reason(text, number, room))
}

// The label sheet of a text, and its totals.
#[unsafe(no_mangle)]
pub extern "C" fn batqemulo_sheet(text: &[u8], sheet: &mut [u8], totals: &mut [u32]) -> CAnswer
    ensures { InC (λ a. TextSheet text.now (sheet.old, totals.old) a
        (sheet.new, totals.new)) result }
{
    in_c(call_sheet::text_sheet(text, sheet, totals))
}

// An old sheet, updated from a text.
#[unsafe(no_mangle)]
pub extern "C" fn batqemulo_sheet_update(
    text: &[u8],
    sheet: &mut [u8],
    totals: &mut [u32],
) -> CAnswer
    ensures { InC (λ a. TextSheetUpdate text.now (sheet.old, totals.old) a
        (sheet.new, totals.new)) result }
{
    in_c(call_sheet::text_sheet_update(text, sheet, totals))
}

// The mended text and the report of what was dropped and moved.
#[unsafe(no_mangle)]
pub extern "C" fn batqemulo_mend(
    text: &[u8],
    room: &mut [u8],
    report: &mut [u8],
    report_written: &mut u32,
) -> CAnswer
    ensures { InC (λ a. TextMend text.now
        (room.old, report.old, report_written.old) a
        (room.new, report.new, report_written.new)) result }
{
    in_c(call_mend::text_mend(text, room, report, report_written))
}

// The catalogue of a text.
#[unsafe(no_mangle)]
pub extern "C" fn batqemulo_catalogue(text: &[u8], room: &mut [u8]) -> CAnswer
    ensures { InC (λ a. TextCatalogue text.now room.old a room.new) result }
{
    in_c(call_catalogue::text_catalogue(text, room))
}

// The old form of a catalogue.
#[unsafe(no_mangle)]
pub extern "C" fn batqemulo_uncatalogue(catalogue: &[u8], room: &mut [u8]) -> CAnswer
    ensures { InC (λ a. CatalogueText catalogue.now room.old a room.new) result }
{
    in_c(call_catalogue::catalogue_text(catalogue, room))
}
