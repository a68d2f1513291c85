// What the programs have in common: a word that none of them takes is answered by how the program is used, standard input is
// read whole into a room, an answer is put as what is printed of it, and a room's first bytes are written in pieces. What is
// asked and answered is each program's own. A filter, which takes no word at all, has its input and its output done whole here.
// A failure is said on standard error in the words that the system has for it, and no program has an exit status of its own.
#![tactic(auto)]

ghost use Rattle.std.specs.Prelude.{◌≡◌, ◌≤◌, ◌<◌, length};
ghost use Rattle.program_stream.specs.Input.{Within};
ghost use Rattle.program_stream.specs.Output.{PutsInside, Takes};
ghost use Rattle.program_stream.specs.Pieces.{Piece};
ghost use Rattle.program_stream.specs.PutAnswer.{PutOf};
ghost use Rattle.program_stream.specs.Options.{Option};

use answer::Answer;
use std::env::FillError;
use std::fmt::InlineText;
use std::io;
use std::io::{IsTerminal, Read, Write};
use std::rt::Env;

// Whether a word begins as an option does. No program has one, so that such a word is neither a number nor a file's name.
pub fn is_option(word: &[u8]) -> bool
    ensures { Option word.now result }
{
    word.first() == Some(&b'-')
}

// Whether the program was started with a word at this place. Its name is at 0.
pub fn has_word(rt: HostRuntime, place: usize) -> bool {
    !matches!(rt.arg(place, &mut []), Err(FillError::NotPresent))
}

// Says something on standard error. Where that can't be written, it is lost.
pub fn say(rt: HostRuntime, words: &[u8]) {
    let _ = rt.stderr().write_all(words);
}

// Says in a line of standard error what failed, as the caller names it, and why.
pub fn say_failure(rt: HostRuntime, failed: &[u8], error: io::Error) {
    let said = InlineText::<256>::of(error);
    say(rt, failed);
    say(rt, b": ");
    say(rt, system_words(said.as_str()));
    say(rt, b"\n");
}

// The words that the system has for an error: std puts the error's number behind them.
fn system_words(said: &str) -> &[u8] {
    match said.split_once(" (os error ") {
        Some((words, _)) => words.as_bytes(),
        None => said.as_bytes(),
    }
}

// Says on standard error how the program is used: the name with which it was started, and the words that go behind it. A name
// that is longer than a path may be is left out.
pub fn print_usage(rt: HostRuntime, words: &[u8]) {
    let mut name = [0u8; 4096];
    let n = rt.arg(0, &mut name).unwrap_or(0);
    say(rt, b"usage: ");
    say(rt, &name[..n]);
    say(rt, words);
}

// Says that input is waited for, where somebody is to type it.
fn tell_waiting(rt: HostRuntime) {
    if rt.stdin().is_terminal() {
        say(
            rt,
            b"waiting for a register on standard input; Ctrl-D ends it\n",
        );
    }
}

// Reads until the input ends, the room is full or a read fails, which is not the end of the input: what failed is said then. At a
// terminal it says that it waits.
pub fn read_all<'a>(rt: HostRuntime, room: &'a mut [u8], failed: &[u8]) -> Option<&'a [u8]>
    ensures { Within (length room.old) result }
{
    tell_waiting(rt);
    let mut done = 0;
    // The `done` bytes that reads brought are within the room. A read brings any number of them, so this counts no index.
    while done < room.len() {
        match rt.stdin().read(&mut room[done..]) {
            Ok(0) => break,
            Ok(n) => done += n,
            Err(error) => {
                say_failure(rt, failed, error);
                return None;
            }
        }
    }
    Some(&room[..done])
}

// Leaves what was given, or puts the one line of the refusal at the start of the room, and answers how many bytes are to be
// printed.
pub fn put_answer(answer: Answer, room: &mut [u8]) -> usize
    requires { 64 ≤ length room.old }
    ensures { PutOf answer room.old result room.new }
{
    match answer {
        Ok(n) => n as usize,
        Err(refused) => {
            let number = answer_number::refusal_number(refused);
            let place = answer_number::refusal_place(refused);
            listing_row::write_refusal(number, place, room)
        }
    }
}

// 1,048,576 zeros, room for the report of any text: at most 65,535 lines, and at most 16 bytes for each.
pub fn report_room() -> [u8; 1048576]
    ensures { 1048576 ≡ length result }
{
    [0; 1048576]
}

// Where the piece that starts at a place ends.
fn piece_end(bytes: &[u8], start: usize) -> usize
    requires { start < length bytes.now }
    ensures { Piece bytes.now (length bytes.now) start result }
{
    if bytes.len() - start <= 65536 {
        bytes.len()
    } else {
        start + 65536
    }
}

// Writes bytes to an open file or a stream, piece by piece. Where not all are taken, it answers why. Not over `chunks`: how large
// a piece is at most is the contract of `piece_end`, on which docs/PROMISES.md stands.
pub fn write_pieces<W: Write>(to: &mut W, bytes: &[u8]) -> io::Result<()> {
    let mut start: usize = 0;
    // The first `start` bytes were taken, in whole pieces.
    while start < bytes.len() {
        let end = piece_end(bytes, start);
        to.write_all(&bytes[start..end])?;
        start = end;
    }
    Ok(())
}

// Writes bytes to standard output, and where they are not taken, says what failed.
pub fn print_bytes(rt: HostRuntime, bytes: &[u8], failed: &[u8]) {
    if let Err(error) = write_pieces(&mut rt.stdout(), bytes) {
        say_failure(rt, failed, error);
    }
}

// The words by which a program says that its input, or its output, failed. Each is said whole, by one write.
#[derive(Clone, Copy)]
pub struct Failures<'a> {
    pub input: &'a [u8],
    pub output: &'a [u8],
}

// Reads the input whole, and prints what `output` puts for it at the start of the room, as many bytes as it answers. Where a read
// fails, nothing is printed. The buffer is one byte longer than an input may be, so that a longer one is refused.
pub fn print_answer<F: FnOnce(&[u8], &mut [u8]) -> usize + Drop>(
    rt: HostRuntime,
    failed: Failures,
    room: &mut [u8],
    output: F,
)
    requires takes { Takes (F.pre output) (length room.old) }
    requires puts { PutsInside (F.post output) (length room.old) }
{
    let mut text = [0u8; 65536];
    let Some(bytes) = read_all(rt, &mut text, failed.input) else {
        return;
    };
    let n = output(bytes, room);
    print_bytes(rt, &room[..n], failed.output);
}

// A filter, which takes no word: with one it says how it is used, and reads nothing.
pub fn filter<F: FnOnce(&[u8], &mut [u8]) -> usize + Drop>(
    rt: HostRuntime,
    words: &[u8],
    failed: Failures,
    room: &mut [u8],
    output: F,
)
    requires takes { Takes (F.pre output) (length room.old) }
    requires puts { PutsInside (F.post output) (length room.old) }
{
    if has_word(rt, 1) {
        print_usage(rt, words);
        return;
    }
    print_answer(rt, failed, room, output);
}
