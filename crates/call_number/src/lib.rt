// The public calls on one number: its code, from how it is written, and how it is written, from its code, into a lent room. A C
// caller makes and prints codes by them, and the program `reason` reads its argument. Forms, codes and bytes are left to
// `register_number`, by which texts are read and written too.
#![tactic(auto)]

ghost use Rattle.promises.specs.NumberCalls.{NumberCode, NumberText};

use answer::{Answer, Refusal};
use register::TextFault;

// The code of what is written, which is a number and nothing else.
pub fn number_code(written: &[u8]) -> Answer
    ensures { NumberCode written.now result }
{
    let spoiled = Refusal::Text(TextFault::Spoiled(0));
    let (number, end) = register_number::number_at(written, 0).ok_or(spoiled)?;
    if end != written.len() {
        return Err(spoiled);
    }
    Ok(number)
}

// How the number of a code is written.
pub fn number_text(number: u32, room: &mut [u8]) -> Answer
    ensures { NumberText number room.old result room.new }
{
    if !register_number::is_number(number) {
        return Err(Refusal::Text(TextFault::Spoiled(0)));
    }
    let size = register_number::number_size(number);
    if room.len() < size {
        return Err(Refusal::Room);
    }
    register_number::put_number(room, 0, number);
    Ok(size as u32)
}
