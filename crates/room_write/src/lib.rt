// Words and decimals written into a lent room, one behind the other, and how long they are. What is written, and that there is
// room for it, is for others to say; a register's number is left to `register_number`.
//
// Decimals are put two digits at a time, since each division waits for the one before: one by one, writing numbers took two
// fifths of the time of a listing with few objections.
#![tactic(auto)]

ghost use Rattle.std.specs.Prelude.{◌≡◌, ◌<◌, length};
ghost use Rattle.register.specs.Texts.{decimal};
ghost use Rattle.room_write.specs.Writing.{RoomFor, Put, two_digits};

// How many digits a number has.
#[tactic(auto, using(crate::proofs::TwoDigits::digits))]
pub fn decimal_size(number: u32) -> usize
    ensures { result ≡ length (decimal number) }
{
    let mut left = number;
    let mut digits = 1;
    // The digits counted and the digits of what is left are together one more than the number has.
    while left >= 10 {
        left /= 10;
        digits += 1;
    }
    digits
}

// Puts a word into the room at a place, and answers the place behind it. So do the functions below.
pub fn put_word(room: &mut [u8], at: usize, word: &[u8]) -> usize
    requires { RoomFor room.old at word.now }
    ensures { Put room.old at word.now result room.new }
{
    let end = at + word.len();
    room[at..end].copy_from_slice(word);
    end
}

// The two digits of a number below 100.
fn put_digits(room: &mut [u8], at: usize, number: u32) -> usize
    requires { (number < 100) × RoomFor room.old at (two_digits number) }
    ensures { Put room.old at (two_digits number) result room.new }
{
    room[at] = (48 + number / 10) as u8;
    room[at + 1] = (48 + number % 10) as u8;
    at + 2
}

// A number in decimals: those of a hundredth first, and then the last two.
#[tactic(auto, using(crate::proofs::TwoDigits::digits))]
pub fn put_decimal(room: &mut [u8], at: usize, number: u32) -> usize
    requires { RoomFor room.old at (decimal number) }
    ensures { Put room.old at (decimal number) result room.new }
{
    if number < 10 {
        room[at] = (48 + number) as u8;
        return at + 1;
    }
    if number < 100 {
        return put_digits(room, at, number);
    }
    let end = put_decimal(room, at, number / 100);
    put_digits(room, end, number % 100)
}
