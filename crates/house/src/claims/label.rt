// Sets of claims as a label kind: the union of two, free when empty.
ghost use Rattle.house.specs.ClaimSets.{claims_means};
ghost use Rattle.house.specs.ClaimsLaws.{claims_tells, claims_lawful, claims_freeing};

use super::super::word;
use super::Claims;
use calendar::Day;
use kinds::LabelKind;

impl LabelKind for Claims {
    // The claims that go through.
    type Passage = Claims;

    // The bits.
    type Row = u64;

    type PassageRow = u64;

    ghost means = { claims_means };

    ghost blank = { 0 };

    ghost blankpassage = { 0 };

    ghost tells = { claims_tells };

    ghost lawful = { claims_lawful };

    ghost freeing = { claims_freeing };

    fn empty() -> Claims {
        Claims { bits: 0 }
    }

    fn join(self, other: Claims) -> Claims {
        Claims {
            bits: word::union(self.bits, other.bits),
        }
    }

    fn carry(self, passage: Claims) -> Claims {
        Claims {
            bits: word::intersection(self.bits, passage.bits),
        }
    }

    fn is_free(self, _day: Day) -> bool {
        self.bits == 0
    }

    fn to_row(self) -> u64 {
        self.bits
    }

    fn from_row(row: u64) -> Claims {
        Claims { bits: row }
    }

    fn passage_to_row(passage: Claims) -> u64 {
        passage.bits
    }

    fn passage_from_row(row: u64) -> Claims {
        Claims { bits: row }
    }
}
