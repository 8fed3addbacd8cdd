// Expiries and their passages, made from days and numbers.
ghost use Rattle.std.specs.Prelude.{◌≡◌, MatchOption};
ghost use Rattle.house.specs.Expiries.{IsAdd, IsYears, row_of};
ghost use Rattle.house.specs.Ranges.{Ranged};

use super::{Expiry, ExpiryPassage, ExpiryPassageRow, Span, YearCount};
use calendar::Day;
use common::Refusal;

// The expiry of a day's number, or the empty one of 0.
impl TryFrom<u32> for Expiry {
    type Error = Refusal;

    ghost try_from_gives = { λ number result. Ranged 0 84005 number result (λ expiry. expiry.number ≡ number) };

    fn try_from(number: u32) -> Result<Expiry, Refusal> {
        // A range of one bound: `>` is shorter than `contains`.
        if number > Day::LAST {
            return Err(Refusal::OutOfRange);
        }
        Ok(Expiry { number })
    }
}

impl Expiry {
    pub fn until(day: Day) -> Expiry
        ensures { result.number ≡ day.number }
    {
        Expiry { number: day.number }
    }

    // The day, unless the expiry is empty.
    pub fn day(self) -> Option<Day>
        ensures { MatchOption result (self.number ≡ 0) (λ day. day.number ≡ self.number) }
    {
        Day::try_from(self.number).ok()
    }
}

impl ExpiryPassage {
    pub fn cap(day: Day) -> ExpiryPassage
        ensures { result ≡ ExpiryPassage.Cap day }
    {
        ExpiryPassage::Cap(day)
    }

    pub fn add(days: u32) -> Result<ExpiryPassage, Refusal>
        ensures { Ranged 1 36500 days result (IsAdd days) }
    {
        Ok(ExpiryPassage::Add(Span::try_from(days)?))
    }

    pub fn years(count: u32) -> Result<ExpiryPassage, Refusal>
        ensures { Ranged 1 100 count result (IsYears count) }
    {
        Ok(ExpiryPassage::Years(YearCount::try_from(count)?))
    }
}

// The row of a form and a number: 1 is cap, 2 is add, 3 is years, and any other is pass.
impl From<(u8, u32)> for ExpiryPassageRow {
    ghost from_gives = { λ pair row. row ≡ row_of pair.0 pair.1 };

    fn from((form, number): (u8, u32)) -> ExpiryPassageRow {
        match form {
            1 => ExpiryPassageRow::Cap(number),
            2 => ExpiryPassageRow::Add(number),
            3 => ExpiryPassageRow::Years(number),
            _ => ExpiryPassageRow::Pass,
        }
    }
}
