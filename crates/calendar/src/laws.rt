// What holds of all days and dates.
ghost use Rattle.std.specs.Prelude.{◌≡◌, ℕ, Ok, MatchResult};
ghost use Rattle.common.specs.declared.refusal.Refusal.{Refusal};
ghost use Rattle.calendar.specs.Calendar.{FallsOn};
ghost use Rattle.calendar.specs.Theorems.{DaysAreDates, TestTells, TextTells, Examples};

use super::date::Date;
use super::day::Day;
use common::Refusal;

// A day's date is that day.
pub fn day_and_back(day: Day) -> Result<Day, Refusal>
    ensures { result ≡ Ok day }
{
    day.date().to_day()
}

// A date's day has that date.
pub fn date_and_back(date: Date) -> Result<Date, Refusal>
    ensures { MatchResult result (λ x. x ≡ date) (λ e. (e ≡ Refusal.OutOfRange) × ((n : ℕ) → FallsOn date.year date.month date.day n → ⊥)) }
{
    let day = date.to_day()?;
    Ok(day.date())
}

// A day's text is read as that day.
pub fn text_and_back(day: Day) -> Result<Day, Refusal>
    ensures { result ≡ Ok day }
{
    let text = day.text();
    Day::read(&text)
}

pub fn calendar_stands()
    ensures days { DaysAreDates }
    ensures test { TestTells }
    ensures text { TextTells }
    ensures examples { Examples }
{}
