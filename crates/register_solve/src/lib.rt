// A register text, read and labelled: what most calls on a text begin with. Reading is left to `register_read`, labels to
// `label_solve`; what is then asked of the register is left to the crates above.
#![tactic(auto)]

mod label_rooms;
mod labelled_register;

ghost use Rattle.std.specs.Prelude.{◌≤◌, length, take};
ghost use Rattle.lists.specs.Handed.{Handed};
ghost use Rattle.label_solve.specs.Labelled.{Solved};
ghost use Rattle.register_read.specs.ReadState.{Spacious};
ghost use Rattle.register_solve.specs.SolvedText.{SolvedText};
ghost use Rattle.register_solve.specs.SolvedAs.{SolvedAs};

pub use label_rooms::LabelRooms;
use label_solve::LabelledPairs;
pub use labelled_register::LabelledRegister;
use lists::Pairs;
use register::TextFault;

// Labels the n statements and m objections that rooms begin with.
fn solve_rooms(
    marks: &[u8],
    objectors: &[u32],
    targets: &[u32],
    n: usize,
    m: usize,
    labels: &mut [u8],
    lengths: &mut [u16],
)
    requires lists_in_bounds { (n ≤ length marks.now) × (m ≤ length objectors.now) × (m ≤ length targets.now) }
    requires handed { Handed (take n marks.now) (take m objectors.now) (take m targets.now) }
    requires rooms_in_bounds { (n ≤ length labels.old) × (n ≤ length lengths.old) }
    ensures { Solved (take n marks.now) (take m objectors.now) (take m targets.now)
        labels.old lengths.old labels.new lengths.new }
{
    let pairs = Pairs {
        marks: &marks[..n],
        objectors: &objectors[..m],
        targets: &targets[..m],
    };
    label_solve::solve(&pairs, labels, lengths);
}

// Reads a text and labels its register, all in lent rooms. Answers how many statements and objections there are.
pub fn solve_text(
    text: &[u8],
    numbers: &mut [u32],
    marks: &mut [u8],
    objectors: &mut [u32],
    targets: &mut [u32],
    labels: &mut [u8],
    lengths: &mut [u16],
) -> Result<(usize, usize), TextFault>
    requires spacious { Spacious numbers.old marks.old objectors.old targets.old }
    requires in_bounds { (1024 ≤ length labels.old) × (1024 ≤ length lengths.old) }
    ensures { SolvedText text.now numbers.new marks.new objectors.new
        targets.new labels.new lengths.new result }
{
    let (n, m) = register_read::read(text, numbers, marks, objectors, targets)?;
    solve_rooms(marks, objectors, targets, n, m, labels, lengths);
    Ok((n, m))
}

// Reads a text and labels its register in rooms that are one value, and answers what it makes.
pub fn solve_register<'a>(
    text: &[u8],
    rooms: &'a mut LabelRooms,
) -> Result<LabelledRegister<'a>, TextFault>
    ensures { SolvedAs text.now result }
{
    let (n, m) = solve_text(
        text,
        &mut rooms.numbers,
        &mut rooms.marks,
        &mut rooms.objectors,
        &mut rooms.targets,
        &mut rooms.labels,
        &mut rooms.lengths,
    )?;
    let pairs = Pairs {
        marks: &rooms.marks[..n],
        objectors: &rooms.objectors[..m],
        targets: &rooms.targets[..m],
    };
    let labelled = LabelledPairs {
        pairs,
        labels: &rooms.labels,
        lengths: &rooms.lengths,
    };
    Ok(LabelledRegister {
        numbers: &rooms.numbers[..n],
        labelled,
    })
}
