// Passages of locks, made from numbers.
ghost use Rattle.house.specs.Ranges.{Ranged};
ghost use Rattle.house.specs.Locks.{IsMost};

use super::{Ceiling, LockPassage};
use common::Refusal;

impl LockPassage {
    // Lets at most this level through.
    pub fn most(level: u8) -> Result<LockPassage, Refusal>
        ensures { Ranged 0 2 level result (IsMost level) }
    {
        Ok(LockPassage::Most(Ceiling::try_from(level)?))
    }
}
