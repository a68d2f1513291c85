// An answer in numbers: the number and the place of a refusal, and the two numbers that C gets. The functions that C calls are in
// `batqemulo_c`. None is a `From`, which would stand beside the types: a crate with a bare noun has no function (tests/house.sh).
#![tactic(auto)]

ghost use Rattle.std.specs.Prelude.{◌≡◌};
ghost use Rattle.answer.specs.InC.{in_c};
ghost use Rattle.answer.specs.Refusals.{refusal_number, refusal_place};
ghost use Rattle.lists.specs.ListsFaults.{lists_fault_number, lists_fault_place};
ghost use Rattle.register.specs.TextFaults.{text_fault_number, text_fault_place};

use answer::{Answer, CAnswer, Refusal};
use lists::ListsFault;
use register::TextFault;

// The number and the place of what a text is refused for.
fn text_fault_number(fault: TextFault) -> u32
    ensures { result ≡ text_fault_number fault }
{
    match fault {
        TextFault::TooLong => 1,
        TextFault::Unended => 2,
        TextFault::Spoiled(_) => 3,
        TextFault::Late(_) => 4,
        TextFault::Issued(_) => 5,
        TextFault::Statements(_) => 6,
        TextFault::Unknown(_) => 7,
        TextFault::Repeated(_) => 8,
        TextFault::Objections(_) => 9,
    }
}

fn text_fault_place(fault: TextFault) -> u32
    ensures { result ≡ text_fault_place fault }
{
    match fault {
        TextFault::TooLong | TextFault::Unended => 0,
        TextFault::Spoiled(line)
        | TextFault::Late(line)
        | TextFault::Issued(line)
        | TextFault::Statements(line)
        | TextFault::Unknown(line)
        | TextFault::Repeated(line)
        | TextFault::Objections(line) => line,
    }
}

// The number and the place of what lists are refused for.
fn lists_fault_number(fault: ListsFault) -> u32
    ensures { result ≡ lists_fault_number fault }
{
    match fault {
        ListsFault::Unequal => 11,
        ListsFault::Statements => 6,
        ListsFault::Objections => 9,
        ListsFault::Mark(_) => 12,
        ListsFault::Place(_) => 13,
        ListsFault::Repeated(_) => 8,
    }
}

fn lists_fault_place(fault: ListsFault) -> u32
    ensures { result ≡ lists_fault_place fault }
{
    match fault {
        ListsFault::Unequal | ListsFault::Statements | ListsFault::Objections => 0,
        ListsFault::Mark(entry) | ListsFault::Place(entry) | ListsFault::Repeated(entry) => entry,
    }
}

pub fn refusal_number(refusal: Refusal) -> u32
    ensures { result ≡ refusal_number refusal }
{
    match refusal {
        Refusal::Text(fault) => text_fault_number(fault),
        Refusal::Lists(fault) => lists_fault_number(fault),
        Refusal::Room => 10,
        Refusal::Asked => 14,
        Refusal::Turns => 15,
        Refusal::Sheet => 16,
    }
}

pub fn refusal_place(refusal: Refusal) -> u32
    ensures { result ≡ refusal_place refusal }
{
    match refusal {
        Refusal::Text(fault) => text_fault_place(fault),
        Refusal::Lists(fault) => lists_fault_place(fault),
        Refusal::Room | Refusal::Asked | Refusal::Turns | Refusal::Sheet => 0,
    }
}

pub fn in_c(answer: Answer) -> CAnswer
    ensures { result ≡ in_c answer }
{
    match answer {
        Err(refused) => CAnswer {
            refusal: refusal_number(refused),
            value: refusal_place(refused),
        },
        Ok(value) => CAnswer { refusal: 0, value },
    }
}
