// The class exercise: does a statement fall within so many turns, does it stand within so many. The chains are made here and the
// tables begun; the questions are left to `exercise_within`. Whether the lists are in order, and how many turns may be asked, is
// left to others.
#![tactic(auto)]

ghost use Rattle.std.specs.Prelude.{◌<◌, ◌≤◌, length};
ghost use Rattle.game.specs.Exercise.{Answered};
ghost use Rattle.lists.specs.PairsBook.{pairs_book};

use exercise_within::{falls_within, stands_within};
use lists::Pairs;
use pair_chain::{Links, chain};

// What the exercise answers of the statement at place x: 2 falls within the turns, 1 stands within them, 0 neither. It stays a
// number, since the call from C hands on this very number.
pub fn answer(pairs: &Pairs, x: usize, turns: usize) -> u32
    requires { (x < length pairs.now.marks.now) × (turns ≤ 6) }
    ensures { Answered (pairs_book pairs.now) x turns result }
{
    let mut head = [0u16; 1024];
    let mut next = [0u16; 4096];
    let mut falls = [0u8; 7168];
    let mut stands = [0u8; 7168];
    chain(pairs.targets, &mut head, &mut next);
    let links = Links {
        head: &head,
        next: &next,
    };
    if falls_within(pairs, &links, x, turns, &mut falls, &mut stands) {
        return 2;
    }
    if stands_within(pairs, &links, x, turns, &mut falls, &mut stands) {
        return 1;
    }
    0
}
