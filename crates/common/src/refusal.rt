// Why a call was refused, with the number of each reason.
ghost use Rattle.std.specs.Prelude.{◌≡◌, Some};
ghost use Rattle.common.specs.Refusals.{number as number_of, words};

use std::error::Error;
use std::fmt;

#[derive(Clone, Copy, PartialEq, Eq, Debug, Hash)]
pub enum Refusal {
    NoSuchPlace = 1,
    Absent = 2,
    Present = 3,
    Linked = 4,
    NotLinked = 5,
    Circle = 6,
    Full = 7,
    PermitOut = 8,
    NoPermit = 9,
    OutOfRange = 10,
    NotFree = 11,
    Leaving = 12,
    ShortList = 13,
    Free = 14,
    BadSize = 15,
    ShortTable = 16,
    ShortBuffer = 17,
    NoItem = 18,
    NotAllowed = 19,
    Unfinished = 20,
}

// The number by which users know the refusal.
impl From<Refusal> for u8 {
    ghost from_gives = { λ refusal n. n ≡ number_of refusal };

    fn from(refusal: Refusal) -> u8 {
        refusal as u8
    }
}

impl fmt::Display for Refusal {
    ghost output = { λ refusal. Some (words refusal) };

    fn fmt<W: fmt::Write>(&self, f: &mut fmt::Formatter<W>) -> fmt::Result {
        f.write_str(match self {
            Refusal::NoSuchPlace => "the store has no place of this number",
            Refusal::Absent => "the place is absent",
            Refusal::Present => "the place is present already",
            Refusal::Linked => "the two places are linked already",
            Refusal::NotLinked => "the two places are not linked",
            Refusal::Circle => "the link would close a circle",
            Refusal::Full => "the link table is full",
            Refusal::PermitOut => "a permit is out",
            Refusal::NoPermit => "no permit for this place and day is out",
            Refusal::OutOfRange => "a value or a date is outside its range",
            Refusal::NotFree => "the label is not free on the day",
            Refusal::Leaving => "a link leaves the place",
            Refusal::ShortList => "the caller's list is too short",
            Refusal::Free => "the label is free on the day, so nothing is to be explained",
            Refusal::BadSize => "a number of places or links is outside its limits",
            Refusal::ShortTable => "a table is too short",
            Refusal::ShortBuffer => "the caller's buffer is too short",
            Refusal::NoItem => "a byte or a run of bytes is no item",
            Refusal::NotAllowed => "an item is not allowed there",
            Refusal::Unfinished => "the text ends inside a line",
        })
    }
}

impl Error for Refusal {}
