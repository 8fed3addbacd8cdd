// Day numbers.
ghost use Rattle.std.specs.Prelude.{◌≡◌, ◌≤◌, MatchResult};
ghost use Rattle.common.specs.declared.refusal.Refusal.{Refusal};

use common::Refusal;

// A day from 2 January 1970 (1) to 31 December 2199 (84005). No value of this type is outside that range.
#[derive(Clone, Copy, PartialEq, Eq, PartialOrd, Ord, Debug, Hash)]
pub struct Day {
    pub number: u32,
    ghost low: { 1 ≤ number },
    ghost high: { number ≤ 84005 },
}

impl Day {
    pub const LAST: u32 = 84005;
}

// The day of a number, if it is one.
impl TryFrom<u32> for Day {
    type Error = Refusal;

    ghost try_from_gives = { λ number result. MatchResult result (λ d. d.number ≡ number) (λ e. (e ≡ Refusal.OutOfRange) × ((1 ≤ number) × (number ≤ 84005) → ⊥)) };

    fn try_from(number: u32) -> Result<Day, Refusal> {
        if !(1..=Day::LAST).contains(&number) {
            return Err(Refusal::OutOfRange);
        }
        Ok(Day { number })
    }
}
