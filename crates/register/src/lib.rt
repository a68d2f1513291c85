// What a register text is: its lines, numbers and marks, and what a text is refused for. No function stands here: specs/ says how
// a register is written, and which texts are accepted or refused; proofs/ that every text is one or the other, once. Reading a
// text is left to `register_read`.
#![tactic(auto)]

// A number of an acquisition, such as 1987.14: the year, and the serial within it.
#[derive(Clone, Copy)]
pub struct YearSerial {
    pub year: u32,
    pub serial: u32,
}

// A number has one of two forms.
#[derive(Clone, Copy)]
pub enum Form {
    Plain(u32),
    Year(YearSerial),
}

#[derive(Clone, Copy)]
pub enum Mark {
    Read,
    Unread,
}

#[derive(Clone, Copy)]
pub struct StatementLine {
    pub number: u32,
    pub mark: Mark,
}

#[derive(Clone, Copy)]
pub struct ObjectionLine {
    pub objector: u32,
    pub target: u32,
}

// A line that was read is either a statement with its mark or an objection with its two numbers.
#[derive(Clone, Copy)]
pub enum Line {
    Statement(StatementLine),
    Objection(ObjectionLine),
}

// What a text can be refused for: 01's numbers 1 to 9. A case holds its line; the first two have none.
#[derive(Clone, Copy)]
pub enum TextFault {
    TooLong,
    Unended,
    Spoiled(u32),
    Late(u32),
    Issued(u32),
    Statements(u32),
    Unknown(u32),
    Repeated(u32),
    Objections(u32),
}
