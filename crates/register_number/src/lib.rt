// A number of a register: read at a place of the lent text as one of its two forms, its code, its size, and written into a lent
// room. What a number is, `register` says; the line around it is left to others, and so are counts and lengths, which are plain
// decimals. Only here does the program know how a code is made, so that everything above compares codes.
#![tactic(auto)]

ghost use Rattle.std.specs.Prelude.{◌≡◌, ◌≤◌, ◌^◌, length};
ghost use Rattle.register.specs.Number.{Proper, code, form_of, number_bytes};
ghost use Rattle.room_write.specs.Writing.{RoomFor, Put};
ghost use Rattle.register_number.specs.NumberReading.{byte_at, digit_of, DigitsAt, FormAt, NumberAt, Numbered};

use register::{Form, YearSerial};
use room_write::{decimal_size, put_decimal, put_word};

// The byte at a place, or 256, which is no byte, past the end. No Option: each caller holds it against one byte, and none is 256.
pub fn byte_at(s: &[u8], i: usize) -> u32
    ensures { result ≡ byte_at s.now i }
{
    if i < s.len() { s[i] as u32 } else { 256 }
}

// The value of the digit at a place, or 10 where there is none. No Option: one bound then tells digits from all else.
fn digit_at(s: &[u8], i: usize) -> u32
    ensures { result ≡ digit_of (byte_at s.now i) }
{
    let b = byte_at(s, i);
    if 48 <= b {
        if b <= 57 { b - 48 } else { 10 }
    } else {
        10
    }
}

// The digits that start at a place: all that stand there, of which there may be so many, the first not 0. Answers what they say,
// and the place behind them; so do the functions below with what they read.
fn digits_at(s: &[u8], at: usize, most: usize) -> Option<(u32, usize)>
    requires { (at ≤ length s.now) × (1 ≤ most) × (most ≤ 9) }
    ensures { DigitsAt s.now at (10 ^ most) result }
{
    let first = digit_at(s, at);
    if first == 0 {
        return None;
    }
    if first > 9 {
        return None;
    }
    let mut value = first;
    // The bytes from `at` on and before i are the digits of the value, and there are not too many.
    for i in at + 1..at + most {
        let digit = digit_at(s, i);
        if digit > 9 {
            return Some((value, i));
        }
        value = value * 10 + digit;
    }
    if digit_at(s, at + most) < 10 {
        return None;
    }
    Some((value, at + most))
}

// The form of the number that starts at a place: where a point follows its digits, they are a year, and a serial stands behind.
fn form_at(s: &[u8], at: usize) -> Option<(Form, usize)>
    requires { at ≤ length s.now }
    ensures { FormAt s.now at result }
{
    let (value, end) = digits_at(s, at, 8)?;
    if byte_at(s, end) != 46 {
        return Some((Form::Plain(value), end));
    }
    if value < 1000 {
        return None;
    }
    if value > 2099 {
        return None;
    }
    let (serial, last) = digits_at(s, end + 1, 4)?;
    let dated = YearSerial {
        year: value,
        serial,
    };
    Some((Form::Year(dated), last))
}

// The code of a number.
fn code_of(form: Form) -> u32
    requires { Proper form }
    ensures { result ≡ code form }
{
    match form {
        Form::Plain(value) => value,
        Form::Year(YearSerial { year, serial }) => 100000000 + 10000 * year + serial,
    }
}

// The number that starts at a place, by its code.
pub fn number_at(s: &[u8], at: usize) -> Option<(u32, usize)>
    requires { at ≤ length s.now }
    ensures { NumberAt s.now at result }
{
    let (form, end) = form_at(s, at)?;
    Some((code_of(form), end))
}

// The form of the number that has a code.
fn form_of(number: u32) -> Form
    ensures { result ≡ form_of number }
{
    if number < 100000000 {
        return Form::Plain(number);
    }
    Form::Year(YearSerial {
        year: number / 10000 - 10000,
        serial: number % 10000,
    })
}

// Whether a code is that of a number.
pub fn is_number(number: u32) -> bool
    ensures { Numbered number result }
{
    match form_of(number) {
        Form::Plain(0) => false,
        Form::Plain(_) => true,
        Form::Year(YearSerial { serial: 0, .. }) => false,
        Form::Year(
            YearSerial {
                year: 1000..=2099,
                ..
            },
        ) => true,
        Form::Year(_) => false,
    }
}

// How many bytes a number has.
pub fn number_size(number: u32) -> usize
    ensures { result ≡ length (number_bytes number) }
{
    match form_of(number) {
        Form::Plain(value) => decimal_size(value),
        Form::Year(YearSerial { year, serial }) => decimal_size(year) + 1 + decimal_size(serial),
    }
}

// Puts a number into the room at a place, and answers the place behind it.
pub fn put_number(room: &mut [u8], at: usize, number: u32) -> usize
    requires { RoomFor room.old at (number_bytes number) }
    ensures { Put room.old at (number_bytes number) result room.new }
{
    match form_of(number) {
        Form::Plain(value) => put_decimal(room, at, value),
        Form::Year(YearSerial { year, serial }) => {
            let point_at = put_decimal(room, at, year);
            let serial_at = put_word(room, point_at, b".");
            put_decimal(room, serial_at, serial)
        }
    }
}
