// The kind of an objection: from the labels of its two ends, and of an entry of lists that are labelled; and the numbers that a
// kind has. What kinds are stands in `game`, and where the labels come from is left to `label_solve`.
#![tactic(auto)]

ghost use Rattle.std.specs.Prelude.{◌≡◌, ◌<◌, length, get_or};
ghost use Rattle.game.specs.Objection.{OfKind};
ghost use Rattle.game.specs.Account.{kind_number, kind_length};
ghost use Rattle.label_kind.specs.Ends.{Ends};
ghost use Rattle.lists.specs.PairsBook.{pairs_book};
ghost use Rattle.label_solve.specs.AreLabelled.{AreLabelled};

use game::Kind;
use label_solve::LabelledPairs;

// The kind of an objection, by the label numbers (0 open, 1 stands, 2 falls) of its target, then of its objector. `length`
// is the objector's.
pub fn kind_of(target: u8, objector: u8, length: u16) -> Kind
    requires { Ends target objector length }
    ensures { (e : Ends target objector length) → OfKind e.book e.y e.x result }
{
    match (target, objector) {
        (2, 1) => Kind::Felling(length + 1),
        (1, 2) => Kind::Delaying(length + 1),
        (2, 2) | (2, 0) | (0, 2) => Kind::Idle,
        (0, 0) => Kind::Standoff,
        _ => unreachable!(),
    }
}

// The number of a kind. Not `From`, which would stand in `game`: a crate with a bare noun has no function (tests/house.sh).
pub fn kind_number(kind: Kind) -> u8
    ensures { result ≡ kind_number kind }
{
    match kind {
        Kind::Idle => 0,
        Kind::Felling(_) => 1,
        Kind::Delaying(_) => 2,
        Kind::Standoff => 3,
    }
}

// 65,535 for none, and no Option: that is the number of the C interface.
pub fn kind_length(kind: Kind) -> u16
    ensures { result ≡ kind_length kind }
{
    match kind {
        Kind::Felling(length) | Kind::Delaying(length) => length,
        Kind::Idle | Kind::Standoff => u16::MAX,
    }
}

// The kind of the objection at entry k, from the labels and lengths of its two ends.
pub fn kind_at(labelled: &LabelledPairs, k: usize) -> Kind
    requires { AreLabelled labelled.now × (k < length labelled.now.pairs.objectors.now) }
    ensures { OfKind (pairs_book labelled.now.pairs) (get_or labelled.now.pairs.objectors.now k 0)
        (get_or labelled.now.pairs.targets.now k 0) result }
{
    let y = labelled.pairs.objectors[k] as usize;
    let x = labelled.pairs.targets[k] as usize;
    kind_of(labelled.labels[x], labelled.labels[y], labelled.lengths[y])
}
