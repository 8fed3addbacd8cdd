// The text of a date, `YYYY-MM-DD`.
ghost use Rattle.std.specs.Prelude.{◌≡◌, ℕ, ◌+◌, ◌-◌, ◌*◌, ◌<◌, true, false, Some, length, MatchOption, MatchResult, ◌≢◌};
ghost use Rattle.std.specs.Result.{result_ok};
ghost use Rattle.std.specs.Option.{option_map};
ghost use Rattle.common.specs.declared.refusal.Refusal.{Refusal};
ghost use Rattle.calendar.specs.Calendar.{InRange};
ghost use Rattle.calendar.specs.Text.{digit, two, date_text, day_text, is_date, two_at, day_in};

use super::date::Date;
use super::day::Day;
use common::Refusal;
use std::fmt;

// The number that two digits write.
fn two_digits(a: u8, b: u8) -> Option<u32>
    ensures { MatchOption result ((digit a ≡ true) × (digit b ≡ true) → ⊥) (λ n. (digit a ≡ true) × (digit b ≡ true) × (n ≡ (a - 48) * 10 + (b - 48)) × (n < 100)) }
{
    if !a.is_ascii_digit() || !b.is_ascii_digit() {
        return None;
    }
    Some(u32::from(a - b'0') * 10 + u32::from(b - b'0'))
}

// The two digits of a number below 100.
fn digits_of(n: u32) -> [u8; 2]
    requires { n < 100 }
    ensures { result ≡ two n }
{
    [b'0' + (n / 10) as u8, b'0' + (n % 10) as u8]
}

impl Date {
    // The date that a text has the form of. Not a `TryFrom`: none is no error, for the text may be a number.
    pub fn read(text: &[u8]) -> Option<Date>
        ensures { MatchOption result (is_date text.now ≡ false) (λ x. (is_date text.now ≡ true) × (x.year ≡ two_at text.now 0 * 100 + two_at text.now 2) × (x.month ≡ two_at text.now 5) × (x.day ≡ two_at text.now 8)) }
    {
        let &[a, b, c, d, b'-', e, f, b'-', g, h] = text else {
            return None;
        };
        let century = two_digits(a, b)?;
        let year = two_digits(c, d)?;
        let month = two_digits(e, f)?;
        let day = two_digits(g, h)?;
        Some(Date {
            year: century * 100 + year,
            month,
            day,
        })
    }

    // The text of the date, as bytes that need no heap.
    pub fn text(self) -> [u8; 10]
        ensures { result ≡ date_text self.year self.month self.day }
    {
        let [a, b] = digits_of(self.year / 100);
        let [c, d] = digits_of(self.year % 100);
        let [e, f] = digits_of(self.month);
        let [g, h] = digits_of(self.day);
        [a, b, c, d, b'-', e, f, b'-', g, h]
    }
}

impl fmt::Display for Date {
    ghost output = { λ date. Some (date_text date.year date.month date.day) };

    fn fmt<W: fmt::Write>(&self, f: &mut fmt::Formatter<W>) -> fmt::Result {
        let Date { year, month, day } = *self;
        write!(f, "{year:04}-{month:02}-{day:02}")
    }
}

impl Day {
    // The day whose text this is, if it is the text of one. Not a `TryFrom`, which has one clause.
    pub fn read(text: &[u8]) -> Result<Day, Refusal>
        ensures exact { MatchResult result (λ x. text.now ≡ day_text x.number) (λ e. (e ≡ Refusal.OutOfRange) × ((n : ℕ) → InRange n → text.now ≢ day_text n)) }
        ensures computed { option_map (λ x. x.number) (result_ok result) ≡ day_in text.now }
    {
        let date = Date::read(text).ok_or(Refusal::OutOfRange)?;
        date.to_day()
    }

    // The text of the day's date, as bytes that need no heap.
    pub fn text(self) -> [u8; 10]
        ensures { result ≡ day_text self.number }
    {
        self.date().text()
    }
}

impl fmt::Display for Day {
    ghost output = { λ day. Some (day_text day.number) };

    fn fmt<W: fmt::Write>(&self, f: &mut fmt::Formatter<W>) -> fmt::Result {
        self.date().fmt(f)
    }
}
