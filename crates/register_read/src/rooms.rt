// The rooms that a register is read into. Each is as long as the limits let a register be, so that what reads into them need not
// ask; they stand on the caller's stack, since there is no heap.
ghost use Rattle.register_read.specs.RoomsBlank.{RoomsBlank};

// Numbers and marks of statements, and objectors and targets of objections, by place.
#[derive(Drop)]
pub struct RegisterRooms {
    pub numbers: [u32; 1024],
    pub marks: [u8; 1024],
    pub objectors: [u32; 4096],
    pub targets: [u32; 4096],
}

impl RegisterRooms {
    // Rooms that hold nothing yet.
    #[tactic(auto, unfolding(crate::specs::RoomsBlank::RoomsBlank))]
    pub fn empty() -> RegisterRooms
        ensures { RoomsBlank result }
    {
        RegisterRooms {
            numbers: [0; 1024],
            marks: [0; 1024],
            objectors: [0; 4096],
            targets: [0; 4096],
        }
    }
}
