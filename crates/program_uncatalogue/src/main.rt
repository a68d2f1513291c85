// Reads a catalogue from standard input and prints the old form of its register, or the one line of its refusal. What is printed
// is settled by `output`, hence by the call for the old form, on which alone it stands; the rest only moves bytes. It takes no
// word.
#![tactic(auto)]

ghost use Rattle.std.specs.Prelude.{◌≤◌, length, take};
ghost use Rattle.promises.specs.Programs.{PrintsOldForm};

use program_stream::Failures;

// Puts what is to be printed at the start of the room, and answers how many bytes it has.
fn output(catalogue: &[u8], room: &mut [u8]) -> usize
    requires { 65535 ≤ length room.old }
    ensures { (result ≤ length room.new) × PrintsOldForm catalogue.now (take result room.new) }
{
    let answer = call_catalogue::catalogue_text(catalogue, room);
    program_stream::put_answer(answer, room)
}

// The room is large enough for any old form.
fn main(rt: HostRuntime) {
    let mut room = [0u8; 65536];
    let failed = Failures {
        input: b"uncatalogue: standard input",
        output: b"uncatalogue: standard output",
    };
    program_stream::filter(rt, b" <catalogue\n", failed, &mut room, output);
}
