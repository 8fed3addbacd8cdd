// Levels from 0 to a top.
ghost use Rattle.std.specs.Prelude.{◌≡◌, ◌≤◌};
ghost use Rattle.house.specs.Ranges.{Ranged};

use common::Refusal;

// A level from 0, which is empty, to TOP. No value of this type is outside that range.
#[derive(Clone, Copy, PartialEq, Eq, PartialOrd, Ord, Debug, Hash)]
pub struct Level<const TOP: u8> {
    pub level: u8,
    ghost high: { level ≤ TOP },
}

impl<const TOP: u8> TryFrom<u8> for Level<TOP> {
    type Error = Refusal;

    ghost try_from_gives = { λ n result. Ranged 0 TOP n result (λ v. v.level ≡ n) };

    fn try_from(level: u8) -> Result<Level<TOP>, Refusal> {
        // A range of one bound: `>` is shorter than `contains`.
        if level > TOP {
            return Err(Refusal::OutOfRange);
        }
        Ok(Level { level })
    }
}
