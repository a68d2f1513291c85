// Reads a register text from standard input and prints the reason of the statement whose number is the program's one
// argument, or the one line of a refusal. What is printed is settled by `output`, hence by two calls, the one that reads a number
// and the one for a reason, on which alone it stands; the rest only moves bytes.
#![tactic(auto)]

ghost use Rattle.std.specs.Prelude.{◌≤◌, ℕ, length, take};
ghost use Rattle.register.specs.Number.{IsNumber, number_bytes};
ghost use Rattle.promises.specs.Programs.{PrintsReason};
ghost use Rattle.program_reason.specs.AskedNumber.{NumberOf};

use answer::Answer;
use program_stream::Failures;
use std::rt::Env;

// The number that the argument is, by its code, or 0, which is nobody's. No Option: the call is made all the same, since a text's
// own fault is said before that nothing has the number.
fn number_of(argument: &[u8]) -> u32
    ensures { NumberOf argument.now result }
{
    let answer = call_number::number_code(argument);
    match answer {
        Ok(number) => number,
        Err(_) => 0,
    }
}

// Puts what is to be printed at the start of the room, and answers how many bytes it has.
fn output(text: &[u8], argument: &[u8], room: &mut [u8]) -> usize
    requires { 131072 ≤ length room.old }
    ensures { (result ≤ length room.new) × PrintsReason text.now argument.now
        (take result room.new) }
{
    let number = number_of(argument);
    let answer = call_reason::text_reason(text, number, room);
    program_stream::put_answer(answer, room)
}

// 16 zeros, room for any number as it is written.
fn argument_room() -> [u8; 16]
    ensures { (number : ℕ) → IsNumber number → length (number_bytes number) ≤ length result }
{
    [0; 16]
}

// Prints the reason for the statement of a number. Apart from `main`, since a function zeroes its rooms where it begins: so the
// room is zeroed once, and not before it is known that it is wanted.
fn print_reason(rt: HostRuntime, number: &[u8]) {
    let mut room = [0u8; 131072];
    let failed = Failures {
        input: b"reason: standard input",
        output: b"reason: standard output",
    };
    program_stream::print_answer(
        rt,
        failed,
        &mut room,
        |text, room| output(text, number, room),
    );
}

// An argument that does not fit its room is read as an empty one: neither is a number. Its first bytes are there all the same, so
// that a long option is seen.
fn main(rt: HostRuntime) {
    let mut argument = argument_room();
    let n = rt.arg(1, &mut argument).unwrap_or(0);
    let one_word = program_stream::has_word(rt, 1) && !program_stream::has_word(rt, 2);
    if !one_word || program_stream::is_option(&argument) {
        program_stream::print_usage(rt, b" NUMBER <register\n");
        return;
    }
    print_reason(rt, &argument[..n]);
}
