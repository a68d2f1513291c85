// Parts of the product by themselves, for the benchmark alone and no part of it: the solver behind the cheap checks, without the
// search for repeats; and the checks with that search, without the solver.
#![tactic(auto)]

ghost use Rattle.std.specs.Prelude.{◌≡◌};
ghost use Rattle.label_solve.specs.Labelled.{Solved};
ghost use Rattle.lists.specs.Refuses.{Lists};

use lists::Pairs;

// Labels and lengths. Answers 1 where it solved and 0 where it did not.
#[unsafe(no_mangle)]
pub extern "C" fn bench_solver_label(
    marks: &[u8],
    objectors: &[u32],
    targets: &[u32],
    labels: &mut [u8],
    lengths: &mut [u16],
) -> u32
    ensures { result ≡ 1 → Solved marks.now objectors.now targets.now labels.old
        lengths.old labels.new lengths.new }
{
    if objectors.len() != targets.len() {
        return 0;
    }
    if marks.len() > 1024 {
        return 0;
    }
    if objectors.len() > 4096 {
        return 0;
    }
    if lists_check::bad_mark(marks).is_some() {
        return 0;
    }
    if lists_check::bad_place(marks, objectors, targets).is_some() {
        return 0;
    }
    if labels.len() < marks.len() {
        return 0;
    }
    if lengths.len() < marks.len() {
        return 0;
    }
    let pairs = Pairs {
        marks,
        objectors,
        targets,
    };
    label_solve::solve(&pairs, labels, lengths);
    1
}

// Answers 1 where the lists are in order and no pair comes twice, and 0 where they are not.
#[unsafe(no_mangle)]
pub extern "C" fn bench_solver_check(marks: &[u8], objectors: &[u32], targets: &[u32]) -> u32
    ensures { result ≡ 1 → Lists marks.now objectors.now targets.now }
{
    match lists_check::check(marks, objectors, targets) {
        Ok(_) => 1,
        Err(_) => 0,
    }
}
