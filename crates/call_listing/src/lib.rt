// The public call for the listing of a register text. It has the text read and labelled in rooms of its own, and writes the
// listing only where there is room for all of it. Labels and lengths alone are left to `call_labels_text`, what is asked of one
// number to `call_argument`, `call_exercise` and `call_reason`.
#![tactic(auto)]

ghost use Rattle.register.specs.Register.{Register};
ghost use Rattle.register_solve.specs.SolvedAs.{ReadyAs};
ghost use Rattle.promises.specs.ListingCalls.{TextListing};
ghost use Rattle.call_listing.specs.ListingRoom.{Bounded, HasRoom, ListingWritten};

use answer::{Answer, Refusal};
use register_solve::{LabelRooms, LabelledRegister, solve_register};

// Whether so many bytes are room for the listing. None is longer than 131,072, so that a long room needs no count.
fn has_room(register: &LabelledRegister, room: usize) -> bool
    requires { (R : Register) × ReadyAs R register.now }
    ensures { (R : Register) → ReadyAs R register.now → Bounded R → HasRoom R room result }
{
    if room >= 131072 {
        return true;
    }
    room >= listing_write::size(register)
}

// Writes the listing of a register that is labelled, if there is room for all of it.
fn write_listing(register: &LabelledRegister, room: &mut [u8]) -> Answer
    requires { (R : Register) × ReadyAs R register.now × Bounded R }
    ensures { (R : Register) → ReadyAs R register.now → Bounded R → ListingWritten R room.old result room.new }
{
    if !has_room(register, room.len()) {
        return Err(Refusal::Room);
    }
    let size = listing_write::write(register, room);
    Ok(size as u32)
}

// The listing.
pub fn text_listing(text: &[u8], room: &mut [u8]) -> Answer
    ensures { TextListing text.now room.old result room.new }
{
    let mut rooms = LabelRooms::empty();
    let register = solve_register(text, &mut rooms).map_err(Refusal::Text)?;
    write_listing(&register, room)
}
