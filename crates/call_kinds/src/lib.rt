// The public call for the kinds of objections on handed lists. It checks the lists, has them solved, and writes the kind and the
// length of each objection into the rooms; a kind itself is left to `label_kind`.
#![tactic(auto)]

ghost use Rattle.std.specs.Prelude.{◌≤◌, length};
ghost use Rattle.game.specs.Account.{account_number, account_length};
ghost use Rattle.label_solve.specs.AreLabelled.{AreLabelled};
ghost use Rattle.promises.specs.KindCalls.{Objections, PairsKinds};

use answer::{Answer, Refusal};
use label_kind::{kind_at, kind_length, kind_number};
use label_solve::LabelledPairs;

// Writes the kind and the length of each objection, in the order of the lists.
fn write_kinds(labelled: &LabelledPairs, kinds: &mut [u8], lengths: &mut [u16])
    requires labelled { AreLabelled labelled.now }
    requires rooms { (length labelled.now.pairs.objectors.now ≤ length kinds.old)
        × (length labelled.now.pairs.objectors.now ≤ length lengths.old) }
    ensures { Objections labelled.now.pairs.marks.now labelled.now.pairs.objectors.now labelled.now.pairs.targets.now
        account_number (length labelled.now.pairs.objectors.now) kinds.old kinds.new
        × Objections labelled.now.pairs.marks.now labelled.now.pairs.objectors.now labelled.now.pairs.targets.now
        account_length (length labelled.now.pairs.objectors.now) lengths.old lengths.new }
{
    // The rooms begin with the kinds and lengths of the first k objections, and beyond them are as they were.
    for k in 0..labelled.pairs.objectors.len() {
        let kind = kind_at(labelled, k);
        kinds[k] = kind_number(kind);
        lengths[k] = kind_length(kind);
    }
}

// The kind of each objection (0 idle, 1 felling, 2 delaying, 3 standoff) and its length, a room for each.
pub fn pairs_kinds(
    marks: &[u8],
    objectors: &[u32],
    targets: &[u32],
    kinds: &mut [u8],
    lengths: &mut [u16],
) -> Answer
    ensures { PairsKinds marks.now objectors.now targets.now
        (kinds.old, lengths.old) result (kinds.new, lengths.new) }
{
    let pairs = lists_check::check(marks, objectors, targets).map_err(Refusal::Lists)?;
    let n = objectors.len();
    if kinds.len() < n {
        return Err(Refusal::Room);
    }
    if lengths.len() < n {
        return Err(Refusal::Room);
    }
    let mut labels = [0u8; 1024];
    let mut turns = [0u16; 1024];
    label_solve::solve(&pairs, &mut labels, &mut turns);
    let labelled = LabelledPairs {
        pairs,
        labels: &labels,
        lengths: &turns,
    };
    write_kinds(&labelled, kinds, lengths);
    Ok(n as u32)
}
