// What a public call answers, with the refusals of the product, and the same as C gets it. No function stands here: specs/ says
// what every promise has in common, and which number and place 01's table and later requests give each refusal. Refusals of a
// text and of lists are those of `register` and `lists`; what is refused later is a case here, so that a new number touches
// neither. When one is given, and what a call gives, is said by the call's own promise.
#![tactic(auto)]

use lists::ListsFault;
use register::TextFault;

// How many entries or bytes were written, or the answer itself; or what the call refuses.
pub type Answer = Result<u32, Refusal>;

// The answer as C gets it: `refusal` is 0 where the call is accepted, else 01's number with its place as `value`.
#[repr(C)]
#[derive(Clone, Copy)]
pub struct CAnswer {
    pub refusal: u32,
    pub value: u32,
}

// What a text or lists are refused for; or what is refused of them once they are accepted, with the place 0.
#[derive(Clone, Copy)]
pub enum Refusal {
    Text(TextFault),
    Lists(ListsFault),
    Room,
    Asked,
    Turns,
    Sheet,
}
