// Reads a text from standard input and prints it mended; what was dropped or moved is reported to the file that the program's
// one argument names, or else to standard error. That file is made new before anything is read, so that none is ever
// overwritten. What is printed and reported is settled by `output`, hence by the call that mends; the rest only moves bytes.
#![tactic(auto)]

ghost use Rattle.std.specs.Prelude.{◌*◌, ◌≤◌, length};
ghost use Rattle.program_mend.specs.Sizes.{Inside, outcome_in};
ghost use Rattle.promises.specs.Programs.{Mends};

use answer::Answer;
use std::env::FillError;
use std::fs::{File, OpenOptions};
use std::rt::Env;
use std::{fs, io};

// The numbers that the system has for two errors: a name that is longer than a path may be, and bytes that are no text.
const NAME_TOO_LONG: i32 = 36;

const NO_TEXT: i32 = 84;

// How many bytes are to be printed, and of a mended text how many are to be reported. A refused one has no report, not even an
// empty one.
struct Sizes {
    printed: usize,
    reported: Option<usize>,
}

// Puts what is to be printed and what is to be reported at the start of the two rooms.
fn output(text: &[u8], room: &mut [u8], report: &mut [u8]) -> Sizes
    requires { (65535 ≤ length room.old) × (16 * 65535 ≤ length report.old) }
    ensures { Inside result.printed result.reported room.new report.new × Mends text.now
        (outcome_in result.printed result.reported room.new report.new) }
{
    let mut reported: u32 = 0;
    let answer = call_mend::text_mend(text, room, report, &mut reported);
    let Ok(printed) = answer else {
        return Sizes {
            printed: program_stream::put_answer(answer, room),
            reported: None,
        };
    };
    Sizes {
        printed: printed as usize,
        reported: Some(reported as usize),
    }
}

// Writes the report to the file that was made for it, and closes that, or where none was made, to standard error. Answers why not
// all of it is there. That is in doubt until the file is on its disk; std says nothing of a close that failed, so the system is
// asked before.
fn write_report(rt: HostRuntime, made: Option<File>, report: &[u8]) -> io::Result<()> {
    let Some(mut file) = made else {
        return program_stream::write_pieces(&mut rt.stderr(), report);
    };
    program_stream::write_pieces(&mut file, report)?;
    file.sync_data()
}

// The report goes first: where it can't be written, nothing is printed. Answers whether there is a report.
fn print_mended(rt: HostRuntime, text: &[u8], made: Option<File>) -> bool {
    let mut room = [0u8; 65536];
    let mut report = program_stream::report_room();
    let Sizes { printed, reported } = output(text, &mut room, &mut report);
    if let Some(n) = reported {
        if let Err(error) = write_report(rt, made, &report[..n]) {
            program_stream::say_failure(rt, b"mend: report", error);
            return false;
        }
    }
    program_stream::print_bytes(rt, &room[..printed], b"mend: standard output");
    reported.is_some()
}

// The buffer is one byte longer than a text may be, so that a longer one is refused. Answers whether there is a report.
fn mend_input(rt: HostRuntime, made: Option<File>) -> bool {
    let mut buffer = [0u8; 65536];
    let Some(text) = program_stream::read_all(rt, &mut buffer, b"mend: standard input") else {
        return false;
    };
    print_mended(rt, text, made)
}

// Makes a file to write to, which must not be there yet.
fn make_new(rt: HostRuntime, path: &str) -> io::Result<File> {
    let mut how = OpenOptions::new();
    how.write(true);
    how.create_new(true);
    how.open(&rt, path)
}

fn say_not_made(rt: HostRuntime, path: &[u8], error: io::Error) {
    program_stream::say(rt, b"mend: ");
    program_stream::say_failure(rt, path, error);
}

// Makes the file for the report, which must not be there yet, and has the input mended. Where no report comes of it, the file
// that was made is removed again: an empty one would say that nothing was dropped or moved.
fn mend_into(rt: HostRuntime, path: &str) {
    match make_new(rt, path) {
        Ok(file) => {
            if !mend_input(rt, Some(file)) {
                let _ = fs::remove_file(&rt, path);
            }
        }
        Err(error) => say_not_made(rt, path.as_bytes(), error),
    }
}

// std makes no file whose name is no UTF-8.
fn mend_into_named(rt: HostRuntime, path: &[u8]) {
    match str::from_utf8(path) {
        Ok(text) => mend_into(rt, text),
        Err(_) => say_not_made(rt, path, io::Error::from_raw_os_error(NO_TEXT)),
    }
}

// An argument that is longer than a path may be is never made cut short: that would be another file. Its first bytes are in the
// buffer all the same, so that a long option is seen.
fn main(rt: HostRuntime) {
    let mut path = [0u8; 4096];
    match rt.arg(1, &mut path) {
        Err(FillError::NotPresent) => {
            mend_input(rt, None);
        }
        _ if program_stream::has_word(rt, 2) || program_stream::is_option(&path) => {
            program_stream::print_usage(rt, b" [REPORT] <register\n");
        }
        Err(FillError::TooLong) => {
            let error = io::Error::from_raw_os_error(NAME_TOO_LONG);
            program_stream::say_failure(rt, b"mend: report", error);
        }
        Ok(n) => mend_into_named(rt, &path[..n]),
    }
}
