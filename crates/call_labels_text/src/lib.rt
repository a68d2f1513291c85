// The public calls for the labels and the lengths of a whole register text. Each has the text read in rooms of its own, and the
// solver write straight into the lent room once that is known to be long enough: so nothing is copied, and a refused text costs
// no room for labels. The listing is left to `call_listing`. That labels and lengths have a call each is the C interface's.
#![tactic(auto)]

ghost use Rattle.promises.specs.LabelCalls.{TextLabels, TextLengths};

use answer::{Answer, Refusal};
use call_labels_lists::{write_labels, write_lengths};
use lists::NumberedPairs;
use register_read::{RegisterRooms, read_register};

// The label of each statement, in listed order.
pub fn text_labels(text: &[u8], room: &mut [u8]) -> Answer
    ensures { TextLabels text.now room.old result room.new }
{
    let mut rooms = RegisterRooms::empty();
    let NumberedPairs { pairs, .. } = read_register(text, &mut rooms).map_err(Refusal::Text)?;
    write_labels(&pairs, room)
}

// The length of each statement, in listed order; 65,535 for an open one.
pub fn text_lengths(text: &[u8], room: &mut [u16]) -> Answer
    ensures { TextLengths text.now room.old result room.new }
{
    let mut rooms = RegisterRooms::empty();
    let NumberedPairs { pairs, .. } = read_register(text, &mut rooms).map_err(Refusal::Text)?;
    write_lengths(&pairs, room)
}
