// From a date to its day, and back.
ghost use Rattle.std.specs.Prelude.{◌≡◌, ℕ, MatchResult};
ghost use Rattle.std.specs.Result.{result_ok};
ghost use Rattle.std.specs.Option.{option_map};
ghost use Rattle.common.specs.declared.refusal.Refusal.{Refusal};
ghost use Rattle.calendar.specs.Calendar.{FallsOn, day_if, year_of, month_of, day_of};

use super::date::Date;
use super::day::Day;
use super::tables::{Month, Year};
use common::Refusal;

impl Date {
    // The day of the date, if there is that date from 2 January 1970 to 31 December 2199. Not a `TryFrom`, which has one clause.
    pub fn to_day(self) -> Result<Day, Refusal>
        ensures exact { MatchResult result (λ x. FallsOn self.year self.month self.day x.number) (λ e. (e ≡ Refusal.OutOfRange) × ((n : ℕ) → FallsOn self.year self.month self.day n → ⊥)) }
        ensures computed { option_map (λ x. x.number) (result_ok result) ≡ day_if self.year self.month self.day }
    {
        let Date { year, month, day } = self;
        if !(1970..=2199).contains(&year) || !(1..=12).contains(&month) || day < 1 {
            return Err(Refusal::OutOfRange);
        }
        let year = Year {
            index: year as usize - 1970,
        };
        let month = Month {
            number: month as usize,
            long: year.is_long(),
        };
        if day > month.days() {
            return Err(Refusal::OutOfRange);
        }
        let number = year.start() + month.start() + (day - 1);
        // no date is past the last day, so 0 is the only number out of range
        if number == 0 {
            return Err(Refusal::OutOfRange);
        }
        Ok(Day { number })
    }
}

impl Day {
    // The date of the day: the only one that falls on it. Not a `From`, which has one clause.
    pub fn date(self) -> Date
        ensures falls { FallsOn result.year result.month result.day self.number }
        ensures only { (y m d : ℕ) → FallsOn y m d self.number → (y ≡ result.year) × (m ≡ result.month) × (d ≡ result.day) }
        ensures computed { (result.year ≡ year_of self.number) × (result.month ≡ month_of self.number) × (result.day ≡ day_of self.number) }
    {
        let year = Year::of_day(self);
        let rest = self.number - year.start();
        let month = Month::of_rest(year.is_long(), rest);
        let day = rest - month.start() + 1;
        Date {
            year: 1970 + year.index as u32,
            month: month.number as u32,
            day,
        }
    }
}
