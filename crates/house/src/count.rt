// Numbers from 1 to a limit.
ghost use Rattle.std.specs.Prelude.{◌≡◌, ◌≤◌};
ghost use Rattle.house.specs.Ranges.{Ranged, nearest};

use common::Refusal;

// A number from 1 to MOST. No value of this type is outside that range.
#[derive(Clone, Copy, PartialEq, Eq, PartialOrd, Ord, Debug, Hash)]
pub struct Count<const MOST: u32> {
    pub count: u32,
    ghost low: { 1 ≤ count },
    ghost high: { count ≤ MOST },
}

impl<const MOST: u32> TryFrom<u32> for Count<MOST> {
    type Error = Refusal;

    ghost try_from_gives = { λ n result. Ranged 1 MOST n result (λ v. v.count ≡ n) };

    fn try_from(count: u32) -> Result<Count<MOST>, Refusal> {
        if !(1..=MOST).contains(&count) {
            return Err(Refusal::OutOfRange);
        }
        Ok(Count { count })
    }
}

impl<const MOST: u32> Count<MOST> {
    pub const MOST: u32 = MOST;

    // The number of this type that is nearest.
    pub(crate) fn nearest(count: u32) -> Count<MOST>
        requires { 1 ≤ MOST }
        ensures { result.count ≡ nearest 1 MOST count }
    {
        Count {
            count: count.clamp(1, MOST),
        }
    }
}
