// Sets of claims, made number by number.
ghost use Rattle.std.specs.Prelude.{◌≡◌, ℕ, false, ◌||◌, ◌==◌, nat_lt};
ghost use Rattle.house.specs.ClaimSets.{member};
ghost use Rattle.house.specs.Ranges.{Ranged};

use super::super::word;
use super::Claims;
use common::Refusal;

impl Claims {
    pub fn none() -> Claims
        ensures { (k : ℕ) → member result k ≡ false }
    {
        Claims { bits: 0 }
    }

    pub fn all() -> Claims
        ensures { (k : ℕ) → member result k ≡ nat_lt k 64 }
    {
        Claims { bits: u64::MAX }
    }

    // The set with one claim more.
    pub fn with(self, claim: u32) -> Result<Claims, Refusal>
        ensures { Ranged 0 63 claim result (λ more. (k : ℕ) → member more k ≡ (member self k || k == claim)) }
    {
        // A range of one bound: `>` is shorter than `contains`.
        if claim > 63 {
            return Err(Refusal::OutOfRange);
        }
        Ok(Claims {
            bits: word::with(self.bits, claim),
        })
    }

    pub fn has(self, claim: u32) -> bool
        ensures { result ≡ member self claim }
    {
        word::has(self.bits, claim)
    }
}
