// The catalogue of the register that lists hold, written into a lent room: a card for each statement, with its objectors behind
// its mark in the order of the objection lines. Which lists a register makes is left to `register`, what a card is to
// `catalogue`; numbers are put by `register_number`, and words by `room_write`.
//
// Both passes are linear: the objections are chained by target, from the last one on, so that a card is written by a walk that
// meets the objections against its statement in the order of the lines, and no others.
#![tactic(auto)]

ghost use Rattle.std.specs.Prelude.{◌++◌, ◌≡◌, ◌≤◌, ◌<◌, ℕ, length, drop, get_or};
ghost use Rattle.register.specs.Register.{Register};
ghost use Rattle.register.specs.Texts.{rows_to};
ghost use Rattle.register_read.specs.ReadAs.{MadeAs};
ghost use Rattle.catalogue.specs.Regrouped.{catalogued};
ghost use Rattle.room_write.specs.Writing.{RoomFor, Put};
ghost use Rattle.catalogue_write.specs.CatalogueRows.{mark_tab, card_begin, Turned, ChainedBack, register_field};
ghost use Rattle.catalogue_write.specs.CatalogueRows.{register_fields, register_card, register_cards, Chained};

use lists::NumberedPairs;
use pair_chain::{Links, chain};
use register_number::{number_size, put_number};
use register_write::statements_size;
use room_write::put_word;

// The size of all fields: each objection has one, on the card of its target.
#[tactic(auto, using(crate::proofs::CatalogueSize::sizes))]
fn fields_size(register: &NumberedPairs) -> usize
    ensures { result ≡ length (rows_to (length register.now.pairs.objectors.now) (register_field register.now)) }
{
    let mut total = 0;
    // The total is the size of the fields of the objectors passed.
    for &y in register.pairs.objectors {
        total += number_size(register.numbers[y as usize]) + 1;
    }
    total
}

// How many bytes the catalogue has.
pub fn size(register: &NumberedPairs) -> usize
    requires { (R : Register) × MadeAs R register.now }
    ensures { (R : Register) → MadeAs R register.now → result ≡ length (catalogued R) }
{
    statements_size(register.numbers) + fields_size(register)
}

// Turns places round: the last one first.
fn turn(places: &[u32], turned: &mut [u32])
    requires { (length places.now ≤ 4096) × (length places.now ≤ length turned.old) }
    ensures { Turned places.now turned.new }
{
    // The first e places stand in the room where they belong.
    for (e, &place) in places.iter().enumerate() {
        turned[places.len() - 1 - e] = place;
    }
}

// Chains the objections by target, from the last one on.
fn chain_back(targets: &[u32], head: &mut [u16], next: &mut [u16])
    requires room { (length targets.now ≤ 4096) × (length targets.now ≤ length next.old) × (length head.old ≤ 1024) }
    requires within { (e : ℕ) → e < length targets.now → get_or targets.now e 0 < length head.old }
    requires empty { (x : ℕ) → get_or head.old x 0 ≡ 0 }
    ensures { ChainedBack targets.now head.new next.new }
{
    let mut turned = [0u32; 4096];
    turn(targets, &mut turned);
    chain(&turned[..targets.len()], head, next);
}

// Puts the field of an objection into the room at a place, and answers the place behind it. So do the functions below with what
// they put.
fn put_field(room: &mut [u8], at: usize, register: &NumberedPairs, e: usize) -> usize
    requires within { e < length register.now.pairs.objectors.now }
    requires room_for { RoomFor room.old at (register_field register.now e) }
    ensures { Put room.old at (register_field register.now e) result room.new }
{
    let y = register.pairs.objectors[e] as usize;
    let number_at = put_word(room, at, b"\t");
    put_number(room, number_at, register.numbers[y])
}

// The fields of the statement at the place x.
fn put_fields(
    room: &mut [u8],
    at: usize,
    register: &NumberedPairs,
    links: &Links,
    x: usize,
) -> usize
    requires chained { Chained register.now links.now × (x < length register.now.numbers.now) }
    requires room_for { RoomFor room.old at (register_fields register.now x) }
    ensures { Put room.old at (register_fields register.now x) result room.new }
{
    let mut end = at;
    let mut c = usize::from(links.head[x]);
    // From `at` to `end` the room holds the fields of x of all objections before the last c, and elsewhere it is as it was; if c
    // is not 0, the first of the last c is one against x.
    while c != 0 {
        end = put_field(room, end, register, register.pairs.objectors.len() - c);
        c = usize::from(links.next[c - 1]);
    }
    end
}

// A mark, with the tab before it. Not one with that of `register_write`, behind whose mark the line ends: to put the end apart is
// a word more for each statement.
fn put_mark(room: &mut [u8], at: usize, mark: u8) -> usize
    requires { RoomFor room.old at (mark_tab mark) }
    ensures { Put room.old at (mark_tab mark) result room.new }
{
    if mark == 0 {
        return put_word(room, at, b"\tR");
    }
    put_word(room, at, b"\tU")
}

// A card up to its mark.
fn put_begin(room: &mut [u8], at: usize, number: u32, mark: u8) -> usize
    requires { RoomFor room.old at (card_begin number mark) }
    ensures { Put room.old at (card_begin number mark) result room.new }
{
    let number_at = put_word(room, at, b"S\t");
    let mark_at = put_number(room, number_at, number);
    put_mark(room, mark_at, mark)
}

// The card of the statement at the place x.
fn put_card(room: &mut [u8], at: usize, register: &NumberedPairs, links: &Links, x: usize) -> usize
    requires chained { Chained register.now links.now × (x < length register.now.numbers.now) }
    requires room_for { RoomFor room.old at (register_card register.now x) }
    ensures { Put room.old at (register_card register.now x) result room.new }
{
    let fields_at = put_begin(room, at, register.numbers[x], register.pairs.marks[x]);
    let end = put_fields(room, fields_at, register, links, x);
    put_word(room, end, b"\n")
}

// All cards, at the start of the room.
fn put_cards(room: &mut [u8], register: &NumberedPairs, links: &Links) -> usize
    requires chained { Chained register.now links.now }
    requires room_for { RoomFor room.old 0 (register_cards register.now) }
    ensures { Put room.old 0 (register_cards register.now) result room.new }
{
    let mut end = 0;
    // Up to `end` the room holds the cards of the first x statements, and behind it the room is as it was.
    for x in 0..register.numbers.len() {
        end = put_card(room, end, register, links, x);
    }
    end
}

// Writes the catalogue at the start of a room that is long enough, and answers how many bytes it has.
pub fn write(register: &NumberedPairs, room: &mut [u8]) -> usize
    requires { (R : Register) × MadeAs R register.now × (length (catalogued R) ≤ length room.old) }
    ensures { (R : Register) → MadeAs R register.now → (result ≡ length (catalogued R))
        × (room.new ≡ catalogued R ++ drop (length (catalogued R)) room.old) }
{
    let mut head = [0u16; 1024];
    let mut next = [0u16; 4096];
    chain_back(register.pairs.targets, &mut head, &mut next);
    let links = Links {
        head: &head,
        next: &next,
    };
    put_cards(room, register, &links)
}
