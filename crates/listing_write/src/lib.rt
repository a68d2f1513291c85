// The listing of a register, written into a lent room: a header, a row for each statement with its label and length, and a
// row for each objection with its kind and length. Reading the register, finding the labels and writing a row are left to others.
//
// The size is found by a pass of its own, so that a room that is too short is found before anything is written; a room of
// 131,072 bytes holds every listing, and who has one needs no such pass. Both are linear: a kind is looked up in constant time.
#![tactic(auto)]

ghost use Rattle.std.specs.Prelude.{List, ◌++◌, ◌≡◌, ◌≤◌, ℕ, length, drop};
ghost use Rattle.register.specs.Register.{Register};
ghost use Rattle.room_write.specs.Writing.{RoomFor, Put};
ghost use Rattle.listing.specs.Listing.{IsListing};
ghost use Rattle.label_solve.specs.AreLabelled.{AreLabelled};
ghost use Rattle.register_solve.specs.SolvedAs.{ReadyAs};
ghost use Rattle.listing_write.specs.ListingParts.{statements_of, objections_of};

use listing_row::{entry_size, header_size, put_entry, put_header, put_statement, statement_size};
use register_solve::LabelledRegister;

// The size of the rows of all statements.
fn statements_size(register: &LabelledRegister) -> usize
    ensures { result ≡ length (statements_of register.now) }
{
    (0..register.numbers.len())
        .map(|x| {
            statement_size(
                register.numbers[x],
                register.labelled.labels[x],
                register.labelled.lengths[x],
            )
        })
        .sum()
}

// The size of the rows of all objections.
fn objections_size(register: &LabelledRegister) -> usize
    requires { AreLabelled register.now.labelled }
    ensures { result ≡ length (objections_of register.now) }
{
    (0..register.labelled.pairs.objectors.len())
        .map(|k| entry_size(register, k))
        .sum()
}

// The rows of all statements.
fn put_statements(room: &mut [u8], at: usize, register: &LabelledRegister) -> usize
    requires { RoomFor room.old at (statements_of register.now) }
    ensures { Put room.old at (statements_of register.now) result room.new }
{
    let mut end = at;
    // From `at` to `end` the room holds the rows of the first x statements, and elsewhere it is as it was.
    for (x, &number) in register.numbers.iter().enumerate() {
        end = put_statement(
            room,
            end,
            number,
            register.labelled.labels[x],
            register.labelled.lengths[x],
        );
    }
    end
}

// The rows of all objections.
fn put_objections(room: &mut [u8], at: usize, register: &LabelledRegister) -> usize
    requires are_labelled { AreLabelled register.now.labelled }
    requires room_for { RoomFor room.old at (objections_of register.now) }
    ensures { Put room.old at (objections_of register.now) result room.new }
{
    let mut end = at;
    // From `at` to `end` the room holds the rows of the first k objections, and elsewhere it is as it was.
    for k in 0..register.labelled.pairs.objectors.len() {
        end = put_entry(room, end, register, k);
    }
    end
}

// How many bytes the listing has.
#[tactic(auto, using(crate::proofs::ListingParts::part_sizes))]
pub fn size(register: &LabelledRegister) -> usize
    requires { (R : Register) × ReadyAs R register.now }
    ensures { (R : Register) → ReadyAs R register.now → (l : List ℕ) × IsListing R l × (result ≡ length l) }
{
    let head = header_size(
        register.numbers.len() as u32,
        register.labelled.pairs.objectors.len() as u32,
    );
    let statements = statements_size(register);
    let objections = objections_size(register);
    head + statements + objections
}

// Writes the listing at the start of a room that is long enough, and answers how many bytes it has.
pub fn write(register: &LabelledRegister, room: &mut [u8]) -> usize
    requires { (R : Register) × ReadyAs R register.now × ((l : List ℕ) → IsListing R l → length l ≤ length room.old) }
    ensures { (R : Register) → ReadyAs R register.now → (l : List ℕ) × IsListing R l × (result ≡ length l)
        × (room.new ≡ l ++ drop (length l) room.old) }
{
    let head = put_header(
        room,
        0,
        register.numbers.len() as u32,
        register.labelled.pairs.objectors.len() as u32,
    );
    let statements = put_statements(room, head, register);
    put_objections(room, statements, register)
}
