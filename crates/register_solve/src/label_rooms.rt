// The rooms that a register is read into and labelled in. Each is as long as the limits let a register be, and they stand on the
// caller's stack, since there is no heap.
ghost use Rattle.register_solve.specs.LabelsBlank.{LabelsBlank};

// The register, as `register_read` reads it, and a label and a length for each statement. Not over `RegisterRooms`: the check
// lends no field of a field beside its neighbours.
#[derive(Drop)]
pub struct LabelRooms {
    pub numbers: [u32; 1024],
    pub marks: [u8; 1024],
    pub objectors: [u32; 4096],
    pub targets: [u32; 4096],
    pub labels: [u8; 1024],
    pub lengths: [u16; 1024],
}

impl LabelRooms {
    // Rooms that hold nothing yet.
    #[tactic(auto, unfolding(crate::specs::LabelsBlank::LabelsBlank))]
    pub fn empty() -> LabelRooms
        ensures { LabelsBlank result }
    {
        LabelRooms {
            numbers: [0; 1024],
            marks: [0; 1024],
            objectors: [0; 4096],
            targets: [0; 4096],
            labels: [0; 1024],
            lengths: [0; 1024],
        }
    }
}
