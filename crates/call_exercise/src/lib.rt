// The public calls for the class exercise: of handed lists, about the statement at a place; of a register text, about the
// statement of a number. Each refuses in 01's order. What the exercise answers is left to `exercise_ask`, and checking and
// reading to the crates below.
#![tactic(auto)]

ghost use Rattle.register_read.specs.ReadAs.{MadeAs};
ghost use Rattle.promises.specs.ExerciseCalls.{TextExercise, PairsExercise};
ghost use Rattle.register.specs.Register.{Register};
ghost use Rattle.call_exercise.specs.ExerciseAnswer.{ExerciseAnswered};

use answer::{Answer, Refusal};
use lists::NumberedPairs;
use register_read::{RegisterRooms, read_register};

// The class exercise on the statement at a place: 2 falls within the turns, 1 stands within them, 0 neither.
pub fn pairs_exercise(
    marks: &[u8],
    objectors: &[u32],
    targets: &[u32],
    place: u32,
    turns: u32,
) -> Answer
    ensures { PairsExercise marks.now objectors.now targets.now place turns result }
{
    let pairs = lists_check::check(marks, objectors, targets).map_err(Refusal::Lists)?;
    let x = place as usize;
    if x >= marks.len() {
        return Err(Refusal::Asked);
    }
    let within = turns as usize;
    if within > 6 {
        return Err(Refusal::Turns);
    }
    Ok(exercise_ask::answer(&pairs, x, within))
}

// Asks the class exercise of a register, if the number is there and the turns are few.
fn ask_exercise(register: &NumberedPairs, number: u32, turns: u32) -> Answer
    ensures { (R : Register) → MadeAs R register.now → ExerciseAnswered R number turns result }
{
    let x = register_index::find(register.numbers, number).ok_or(Refusal::Asked)?;
    // The limit stands here as it does above, under another name, so that a must-fail edit can move each of the two.
    let most = turns as usize;
    if most > 6 {
        return Err(Refusal::Turns);
    }
    Ok(exercise_ask::answer(&register.pairs, x, most))
}

// The class exercise on the statement of a number: 2 falls within the turns, 1 stands within them, 0 neither.
pub fn text_exercise(text: &[u8], number: u32, turns: u32) -> Answer
    ensures { TextExercise text.now number turns result }
{
    let mut rooms = RegisterRooms::empty();
    let register = read_register(text, &mut rooms).map_err(Refusal::Text)?;
    ask_exercise(&register, number, turns)
}
