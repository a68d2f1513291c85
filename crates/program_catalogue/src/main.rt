// Reads a register text from standard input and prints its catalogue, or the one line of its refusal. What is printed is settled
// by `output`, hence by the call for a catalogue, on which alone it stands; the rest only moves bytes. It takes no word.
#![tactic(auto)]

ghost use Rattle.std.specs.Prelude.{◌≤◌, length, take};
ghost use Rattle.promises.specs.Programs.{PrintsCatalogue};

use program_stream::Failures;

// Puts what is to be printed at the start of the room, and answers how many bytes it has.
fn output(text: &[u8], room: &mut [u8]) -> usize
    requires { 65535 ≤ length room.old }
    ensures { (result ≤ length room.new) × PrintsCatalogue text.now (take result room.new) }
{
    let answer = call_catalogue::text_catalogue(text, room);
    program_stream::put_answer(answer, room)
}

// The room is large enough for any catalogue.
fn main(rt: HostRuntime) {
    let mut room = [0u8; 65536];
    let failed = Failures {
        input: b"catalogue: standard input",
        output: b"catalogue: standard output",
    };
    program_stream::filter(rt, b" <register\n", failed, &mut room, output);
}
