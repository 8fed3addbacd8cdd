// Dates as they are written.
ghost use Rattle.std.specs.Prelude.{◌≡◌, ◌<◌, MatchResult};
ghost use Rattle.common.specs.declared.refusal.Refusal.{Refusal};

use common::Refusal;

// A year of four digits, a month and a day of two. There need not be such a date.
#[derive(Clone, Copy, PartialEq, Eq, PartialOrd, Ord, Debug, Hash)]
pub struct Date {
    pub year: u32,
    pub month: u32,
    pub day: u32,
    ghost year_fits: { year < 10000 },
    ghost month_fits: { month < 100 },
    ghost day_fits: { day < 100 },
}

impl Date {
    // The date of these numbers, if they can be written. Not a `TryFrom` of a triple: a caller names no parts there.
    pub fn new(year: u32, month: u32, day: u32) -> Result<Date, Refusal>
        ensures { MatchResult result (λ x. (x.year ≡ year) × (x.month ≡ month) × (x.day ≡ day)) (λ e. (e ≡ Refusal.OutOfRange) × ((year < 10000) × (month < 100) × (day < 100) → ⊥)) }
    {
        if year >= 10000 || month >= 100 || day >= 100 {
            return Err(Refusal::OutOfRange);
        }
        Ok(Date { year, month, day })
    }
}
