// The public calls between the two forms of a register: the catalogue of a text, and the old form of a catalogue. Each is read in
// rooms of its own and written only where there is room for all of it. Reading is left to `register_read` and `catalogue_read`,
// writing to `catalogue_write` and `register_write`.
#![tactic(auto)]

ghost use Rattle.std.specs.Prelude.{◌≤◌, length};
ghost use Rattle.register.specs.Register.{Register, written};
ghost use Rattle.register_read.specs.ReadAs.{MadeAs};
ghost use Rattle.catalogue.specs.Regrouped.{catalogued};
ghost use Rattle.promises.specs.CatalogueCalls.{TextCatalogue, CatalogueText};
ghost use Rattle.call_catalogue.specs.FormRoom.{FormFits, FormWritten};

use answer::{Answer, Refusal};
use lists::NumberedPairs;
use register_read::RegisterRooms;

// Whether so many bytes are room for the catalogue. It has at most so many bytes as the text, so that such a room needs no count.
// Not one with that of `call_listing`: bound, size and what is decided are another there, and only the comparison would be
// shared.
fn has_room(register: &NumberedPairs, most: usize, room: usize) -> bool
    requires { (R : Register) × MadeAs R register.now }
    ensures { (R : Register) → MadeAs R register.now → length (catalogued R) ≤ most → FormFits (catalogued R) room result }
{
    if room >= most {
        return true;
    }
    room >= catalogue_write::size(register)
}

// Writes the catalogue of a register, if there is room for all of it.
fn write_catalogue(register: &NumberedPairs, most: usize, room: &mut [u8]) -> Answer
    requires { (most ≤ 65535) × ((R : Register) × MadeAs R register.now × (length (catalogued R) ≤ most)) }
    ensures { (R : Register) → MadeAs R register.now → length (catalogued R) ≤ most
        → FormWritten (catalogued R) room.old result room.new }
{
    if !has_room(register, most, room.len()) {
        return Err(Refusal::Room);
    }
    let size = catalogue_write::write(register, room);
    Ok(size as u32)
}

// The catalogue of a register text.
pub fn text_catalogue(text: &[u8], room: &mut [u8]) -> Answer
    ensures { TextCatalogue text.now room.old result room.new }
{
    let mut rooms = RegisterRooms::empty();
    let register = register_read::read_register(text, &mut rooms).map_err(Refusal::Text)?;
    write_catalogue(&register, text.len(), room)
}

// Writes the old form of a register, if there is room for all of it.
fn write_old_form(register: &NumberedPairs, room: &mut [u8]) -> Answer
    requires { (R : Register) × MadeAs R register.now × (length (written R) ≤ 65535) }
    ensures { (R : Register) → MadeAs R register.now → length (written R) ≤ 65535
        → FormWritten (written R) room.old result room.new }
{
    let pairs = register.pairs;
    let size = register_write::register_size(register.numbers, pairs.objectors, pairs.targets);
    if room.len() < size {
        return Err(Refusal::Room);
    }
    register_write::put_register(room, register);
    Ok(size as u32)
}

// The old form of a catalogue.
pub fn catalogue_text(catalogue: &[u8], room: &mut [u8]) -> Answer
    ensures { CatalogueText catalogue.now room.old result room.new }
{
    let mut rooms = RegisterRooms::empty();
    let register = catalogue_read::read_catalogue(catalogue, &mut rooms).map_err(Refusal::Text)?;
    write_old_form(&register, room)
}
