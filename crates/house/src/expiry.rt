// Expiries and their passages.
ghost use Rattle.std.specs.Prelude.{◌≤◌};

use super::count::Count;
use calendar::Day;

mod label;
mod making;

// Empty, which is 0, or the number of a day. No value of this type is outside that range.
// Not an `Option` of a day: a join is the greater of two numbers, also of empty ones, and a row is a plain number.
#[derive(Clone, Copy, PartialEq, Eq, PartialOrd, Ord, Debug, Hash)]
pub struct Expiry {
    pub number: u32,
    ghost high: { number ≤ 84005 },
}

// A number of days that a passage adds.
pub type Span = Count<36500>;

// A number of years of 365 days that a passage adds.
pub type YearCount = Count<100>;

#[derive(Clone, Copy, PartialEq, Eq, Debug, Hash)]
pub enum ExpiryPassage {
    Pass,
    // the earlier of the two
    Cap(Day),
    Add(Span),
    Years(YearCount),
}

// A passage in a table. Any number is read as the nearest in its range.
#[derive(Clone, Copy, PartialEq, Eq, Debug, Hash)]
pub enum ExpiryPassageRow {
    Pass,
    Cap(u32),
    Add(u32),
    Years(u32),
}
