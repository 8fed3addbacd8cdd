// Locks as a label kind: the higher of two, free below 2.
#![tactic(auto, using(crate::specs::LockLaws::ceiling_row))]

ghost use Rattle.house.specs.Locks.{lock_means};
ghost use Rattle.house.specs.LockLaws.{lock_tells, lock_lawful, lock_freeing};

use super::{Ceiling, Lock, LockPassage};
use calendar::Day;
use kinds::LabelKind;

impl LabelKind for Lock {
    type Passage = LockPassage;

    // The level. A higher number is read as 3.
    type Row = u8;

    // The ceiling, and from 3 on pass: one plain byte in a lent table.
    type PassageRow = u8;

    ghost means = { lock_means };

    ghost blank = { 0 };

    ghost blankpassage = { 0 };

    ghost tells = { lock_tells };

    ghost lawful = { lock_lawful };

    ghost freeing = { lock_freeing };

    fn empty() -> Lock {
        Lock { level: 0 }
    }

    fn join(self, other: Lock) -> Lock {
        self.max(other)
    }

    fn carry(self, passage: LockPassage) -> Lock {
        match passage {
            LockPassage::Pass => self,
            LockPassage::Most(ceiling) => Lock {
                level: self.level.min(ceiling.level),
            },
        }
    }

    fn is_free(self, _day: Day) -> bool {
        self.level < 2
    }

    fn to_row(self) -> u8 {
        self.level
    }

    fn from_row(row: u8) -> Lock {
        Lock { level: row.min(3) }
    }

    fn passage_to_row(passage: LockPassage) -> u8 {
        match passage {
            LockPassage::Pass => 3,
            LockPassage::Most(ceiling) => ceiling.level,
        }
    }

    fn passage_from_row(row: u8) -> LockPassage {
        match Ceiling::try_from(row) {
            Ok(ceiling) => LockPassage::Most(ceiling),
            Err(_) => LockPassage::Pass,
        }
    }
}
