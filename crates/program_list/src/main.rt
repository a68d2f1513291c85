// Reads a register text from standard input and prints its listing, or the one line of its refusal. What is printed is
// settled by `output`, hence by the call for a listing, on which alone it stands; the rest only moves bytes. It takes no word.
#![tactic(auto)]

ghost use Rattle.std.specs.Prelude.{◌≤◌, length, take};
ghost use Rattle.promises.specs.Programs.{Prints};

use program_stream::Failures;

// Puts what is to be printed at the start of the room, and answers how many bytes it has.
fn output(text: &[u8], room: &mut [u8]) -> usize
    requires { 131072 ≤ length room.old }
    ensures { (result ≤ length room.new) × Prints text.now (take result room.new) }
{
    let answer = call_listing::text_listing(text, room);
    program_stream::put_answer(answer, room)
}

// The room is large enough for any listing.
fn main(rt: HostRuntime) {
    let mut room = [0u8; 131072];
    let failed = Failures {
        input: b"list: standard input",
        output: b"list: standard output",
    };
    program_stream::filter(rt, b" <register\n", failed, &mut room, output);
}
