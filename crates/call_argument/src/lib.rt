// The public calls for a line of argument: of handed lists, about the statement at a place and by places; of a register text,
// about the statement of a number and by numbers. Each refuses in 01's order, and writes the line only where there is room for
// all of it. How a line is found is left to `argument_find`, and reading and labels to the crates below.
#![tactic(auto)]

ghost use Rattle.std.specs.Prelude.{ℕ, ◌<◌, ◌≡◌, length, get_or, map};
ghost use Rattle.register_solve.specs.SolvedAs.{ReadyAs};
ghost use Rattle.promises.specs.ArgumentCalls.{TextArgument, PairsArgument};
ghost use Rattle.register.specs.Register.{Register};
ghost use Rattle.call_argument.specs.ArgumentAnswer.{ArgumentWritten};

use answer::{Answer, Refusal};
use argument_find::argument;
use label_solve::LabelledPairs;
use register_solve::{LabelRooms, LabelledRegister, solve_register};

// The line of argument of the statement at a place, by places.
pub fn pairs_line(
    marks: &[u8],
    objectors: &[u32],
    targets: &[u32],
    place: u32,
    line: &mut [u32],
) -> Answer
    ensures { PairsArgument marks.now objectors.now targets.now place line.old result
        line.new }
{
    let pairs = lists_check::check(marks, objectors, targets).map_err(Refusal::Lists)?;
    let x = place as usize;
    if x >= marks.len() {
        return Err(Refusal::Asked);
    }
    let mut labels = [0u8; 1024];
    let mut lengths = [0u16; 1024];
    label_solve::solve(&pairs, &mut labels, &mut lengths);
    let labelled = LabelledPairs {
        pairs,
        labels: &labels,
        lengths: &lengths,
    };
    let n = argument(&labelled, x, line);
    if line.len() < n {
        return Err(Refusal::Room);
    }
    Ok(n as u32)
}

// Puts in the stead of each place the number of its statement.
fn renumber(numbers: &[u32], line: &mut [u32])
    requires { (k : ℕ) → k < length line.old → get_or line.old k 0 < length numbers.now }
    ensures { line.new ≡ map (λ x. get_or numbers.now x 0) line.old }
{
    // The entries passed are numbers, and those to come are places still.
    for entry in line.iter_mut() {
        *entry = numbers[*entry as usize];
    }
}

// Writes the line of argument in a register that is labelled, if the number is there and there is room for all of it.
fn write_argument(register: &LabelledRegister, number: u32, line: &mut [u32]) -> Answer
    requires { (R : Register) × ReadyAs R register.now }
    ensures { (R : Register) → ReadyAs R register.now
        → ArgumentWritten R number line.old result line.new }
{
    let x = register_index::find(register.numbers, number).ok_or(Refusal::Asked)?;
    let n = argument(&register.labelled, x, line);
    if line.len() < n {
        return Err(Refusal::Room);
    }
    renumber(register.numbers, &mut line[..n]);
    Ok(n as u32)
}

// The line of argument of the statement of a number, by numbers.
pub fn text_line(text: &[u8], number: u32, line: &mut [u32]) -> Answer
    ensures { TextArgument text.now number line.old result line.new }
{
    let mut rooms = LabelRooms::empty();
    let register = solve_register(text, &mut rooms).map_err(Refusal::Text)?;
    write_argument(&register, number, line)
}
