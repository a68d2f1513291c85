// The public calls for labels and lengths on handed lists: marks (0 read, 1 unread), and objectors and targets as places in the
// mark list; or moves, with the two lists exchanged. Each checks the lists, and has what is in order solved in the lent room.
// Kinds are left to `call_kinds`, and what is asked about one statement to `call_argument` and `call_exercise`. That labels and
// lengths, and pairs and moves, have a call each is the C interface's.
#![tactic(auto)]

ghost use Rattle.game.specs.Account.{account_number, account_length};
ghost use Rattle.promises.specs.LabelCalls.{PairsLabels, PairsLengths, MovesLabels, MovesLengths};
ghost use Rattle.call_labels_lists.specs.StatementsWritten.{StatementsWritten};

use answer::{Answer, Refusal};
use lists::Pairs;

// The labels of lists that are in order, if there is room for all of them.
pub fn write_labels(pairs: &Pairs, labels: &mut [u8]) -> Answer
    ensures { StatementsWritten account_number pairs.now labels.old result labels.new }
{
    let n = pairs.marks.len();
    if labels.len() < n {
        return Err(Refusal::Room);
    }
    let mut lengths = [0u16; 1024];
    label_solve::solve(pairs, labels, &mut lengths);
    Ok(n as u32)
}

// Their lengths. It is not one function with the one above: the solver needs both rooms, and each call is lent the other one.
pub fn write_lengths(pairs: &Pairs, lengths: &mut [u16]) -> Answer
    ensures { StatementsWritten account_length pairs.now lengths.old result lengths.new }
{
    let n = pairs.marks.len();
    if lengths.len() < n {
        return Err(Refusal::Room);
    }
    let mut labels = [0u8; 1024];
    label_solve::solve(pairs, &mut labels, lengths);
    Ok(n as u32)
}

// The label of each statement: 0 open, 1 stands, 2 falls.
pub fn pairs_labels(marks: &[u8], objectors: &[u32], targets: &[u32], labels: &mut [u8]) -> Answer
    ensures { PairsLabels marks.now objectors.now targets.now labels.old result
        labels.new }
{
    let pairs = lists_check::check(marks, objectors, targets).map_err(Refusal::Lists)?;
    write_labels(&pairs, labels)
}

// The length of each statement; 65,535 for an open one.
pub fn pairs_lengths(
    marks: &[u8],
    objectors: &[u32],
    targets: &[u32],
    lengths: &mut [u16],
) -> Answer
    ensures { PairsLengths marks.now objectors.now targets.now lengths.old result
        lengths.new }
{
    let pairs = lists_check::check(marks, objectors, targets).map_err(Refusal::Lists)?;
    write_lengths(&pairs, lengths)
}

// The labels of moves: `from` holds the target of each objection, `to` its objector.
pub fn moves_labels(marks: &[u8], from: &[u32], to: &[u32], labels: &mut [u8]) -> Answer
    ensures { MovesLabels marks.now from.now to.now labels.old result
        labels.new }
{
    pairs_labels(marks, to, from, labels)
}

// The lengths of moves.
pub fn moves_lengths(marks: &[u8], from: &[u32], to: &[u32], lengths: &mut [u16]) -> Answer
    ensures { MovesLengths marks.now from.now to.now lengths.old result
        lengths.new }
{
    pairs_lengths(marks, to, from, lengths)
}
