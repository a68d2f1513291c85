// Whether one objection belongs to a reason, in a register that is labelled: it goes by the objection's kind and the length of
// its target. Which objections a reason comes to is left to `reason_find`.
#![tactic(auto)]

ghost use Rattle.std.specs.Prelude.{◌<◌, length, get_or};
ghost use Rattle.game.specs.Questions.{Decides};
ghost use Rattle.game.specs.Reason.{Belongs};
ghost use Rattle.lists.specs.PairsBook.{pairs_book};
ghost use Rattle.label_solve.specs.AreLabelled.{AreLabelled};

use game::Kind;
use label_kind::kind_at;
use label_solve::LabelledPairs;

// Whether the objection k belongs to the reasons that come to its target.
pub fn belongs(labelled: &LabelledPairs, k: usize) -> bool
    requires { AreLabelled labelled.now × (k < length labelled.now.pairs.objectors.now) }
    ensures { Decides (Belongs (pairs_book labelled.now.pairs) (get_or labelled.now.pairs.objectors.now k 0)
        (get_or labelled.now.pairs.targets.now k 0)) result }
{
    let target_length = labelled.lengths[labelled.pairs.targets[k] as usize];
    match kind_at(labelled, k) {
        Kind::Idle => false,
        Kind::Felling(length) if length != target_length => false,
        Kind::Felling(_) => true,
        Kind::Delaying(_) => true,
        Kind::Standoff => true,
    }
}
