// The refusals by their names (docs/RULES.md, section 4). A refusal is its number and nothing else.
#![tactic(auto)]

ghost use Rattle.std.specs.Prelude.{◌≡◌};
ghost use Rattle.refusals.specs.Names.{refusal_number};

// A value is outside the table, lent hints are not ranked, or a number has no root (RULES 4.1).
pub const NUMBER: u64 = 1;

// Counts or the order of times are outside the table, or the request stream is malformed (RULES 4.2).
pub const SHAPE: u64 = 2;

// The agent's end is before its start (RULES 4.3).
pub const BACKWARD: u64 = 3;

// A direction is needed and there is none, or a call's leg is short (RULES 4.4).
pub const NO_LINE: u64 = 4;

// In proximity a is below 1e-8 and b is 1e-4 or more in size (RULES 4.5).
pub const CREEP: u64 = 5;

// The meeting range ends 100,000 ns or more before it begins (RULES 4.6).
pub const APART: u64 = 6;

// A time passes 2^53 ns in size, or a hint lies too far away (RULES 4.7).
pub const STRAYED: u64 = 7;

// A whole sweep of pushes leaves the candidate where it was (RULES 4.8).
pub const STUCK: u64 = 8;

// An exit lies more than 10,000 ns before the candidate (RULES 4.9).
pub const LATE: u64 = 9;

// There is a 65th hint (RULES 4.10).
pub const FULL: u64 = 10;

// The budget of pops is spent (RULES 4.11).
pub const SPENT: u64 = 11;

// The answer does not fit the lent room (RULES 4.12).
pub const NO_ROOM: u64 = 12;

// A line of a year's holds is malformed, or is one too many (RULES 4.16).
pub const LINE: u64 = 14;

// A crew's running total leaves the signed numbers of 64 bits (RULES 4.17).
pub const OVERFLOW: u64 = 15;

// Why a call is refused.
#[derive(Clone, Copy, PartialEq, Eq)]
pub enum Refusal {
    // A value is outside the table, lent hints are not ranked, or a number has no root (RULES 4.1).
    Number,
    // Counts or the order of times are outside the table, or the request stream is malformed (RULES 4.2).
    Shape,
    // The agent's end is before its start (RULES 4.3).
    Backward,
    // A direction is needed and there is none, or a call's leg is short (RULES 4.4).
    NoLine,
    // In proximity a is below 1e-8 and b is 1e-4 or more in size (RULES 4.5).
    Creep,
    // The meeting range ends 100,000 ns or more before it begins (RULES 4.6).
    Apart,
    // A time passes 2^53 ns in size, or a hint lies too far away (RULES 4.7).
    Strayed,
    // A whole sweep of pushes leaves the candidate where it was (RULES 4.8).
    Stuck,
    // An exit lies more than 10,000 ns before the candidate (RULES 4.9).
    Late,
    // There is a 65th hint (RULES 4.10).
    Full,
    // The budget of pops is spent (RULES 4.11).
    Spent,
    // The answer does not fit the lent room (RULES 4.12).
    NoRoom,
    // A line of a year's holds is malformed, or is one too many (RULES 4.16).
    Line,
    // A crew's running total leaves the signed numbers of 64 bits (RULES 4.17).
    Overflow,
}

impl From<Refusal> for u64 {
    ghost from_gives = { λ why n. n ≡ refusal_number why };

    fn from(why: Refusal) -> u64 {
        match why {
            Refusal::Number => NUMBER,
            Refusal::Shape => SHAPE,
            Refusal::Backward => BACKWARD,
            Refusal::NoLine => NO_LINE,
            Refusal::Creep => CREEP,
            Refusal::Apart => APART,
            Refusal::Strayed => STRAYED,
            Refusal::Stuck => STUCK,
            Refusal::Late => LATE,
            Refusal::Full => FULL,
            Refusal::Spent => SPENT,
            Refusal::NoRoom => NO_ROOM,
            Refusal::Line => LINE,
            Refusal::Overflow => OVERFLOW,
        }
    }
}
