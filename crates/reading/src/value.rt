// Readers of numbers and dates.
ghost use Rattle.std.specs.Prelude.{◌≡◌, ℕ, ◌+◌, ◌<◌, ◌≤◌, IfOk};
ghost use Rattle.reading.specs.Reading.{pick, counts, counts_in, days, dated};
ghost use Rattle.reading.specs.Agree.{Takes};

use super::fault::{Fault, not_allowed, out_of_range};
use super::item::Mark;
use super::reader::Reader;
use calendar::Day;
use items::{Item, number_in};

impl<'a> Reader<'a> {
    // A number of any value.
    pub fn number(&mut self) -> Result<u32, Fault>
        ensures reads { Takes self.old self.new 1 (λ x. x) (pick counts) result }
        ensures range { IfOk result (λ n. n < 100000) }
    {
        let mut ahead = *self;
        let Item::Number(_, digits) = ahead.item()? else {
            return Err(not_allowed(self.at));
        };
        let n = number_in(digits).ok_or(not_allowed(self.at))?;
        *self = ahead;
        Ok(n)
    }

    // A number from low to high.
    pub fn number_from(&mut self, low: u32, high: u32) -> Result<u32, Fault>
        ensures reads { Takes self.old self.new 1 (λ x. x) (pick (counts_in low high)) result }
        ensures range { IfOk result (λ n. (low ≤ n) × (n ≤ high)) }
    {
        let mut ahead = *self;
        let n = ahead.number()?;
        if (low..=high).contains(&n) {
            *self = ahead;
            Ok(n)
        } else {
            Err(out_of_range(self.at))
        }
    }

    // A date, and its day.
    pub fn day(&mut self) -> Result<Day, Fault>
        ensures { Takes self.old self.new 1 (λ day. day.number) (pick days) result }
    {
        let mut ahead = *self;
        let Item::Date(_, run) = ahead.item()? else {
            return Err(not_allowed(self.at));
        };
        let day = Day::read(run).map_err(|_| out_of_range(self.at))?;
        *self = ahead;
        Ok(day)
    }

    // A space, and then a date.
    pub fn spaced_day(&mut self) -> Result<Day, Fault>
        ensures { Takes self.old self.new 1 (λ day. day.number) dated result }
    {
        let mut ahead = *self;
        ahead.mark(Mark::Space)?;
        let day = ahead.day()?;
        *self = ahead;
        Ok(day)
    }
}
