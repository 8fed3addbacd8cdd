// The pair of two kinds is a kind, part by part.
ghost use Rattle.kinds.specs.Pairs.{pair_means};
ghost use Rattle.kinds.specs.PairLaws.{pair_tells, pair_lawful, pair_freeing};

use super::kind::LabelKind;
use calendar::Day;

#[derive(Clone, Copy, PartialEq, Eq, Debug, Hash)]
pub struct Pair<A, B> {
    pub first: A,
    pub second: B,
}

impl<A: LabelKind, B: LabelKind> LabelKind for Pair<A, B> {
    type Passage = Pair<A::Passage, B::Passage>;

    type Row = Pair<A::Row, B::Row>;

    type PassageRow = Pair<A::PassageRow, B::PassageRow>;

    ghost means = { pair_means A.LabelKind.means B.LabelKind.means };

    ghost blank = { record { first = A.LabelKind.blank; second = B.LabelKind.blank } };

    ghost blankpassage = { record { first = A.LabelKind.blankpassage; second = B.LabelKind.blankpassage } };

    ghost tells = { pair_tells A.LabelKind.tells B.LabelKind.tells };

    ghost lawful = { pair_lawful A.LabelKind.means B.LabelKind.means A.LabelKind.lawful B.LabelKind.lawful };

    ghost freeing = { pair_freeing A.LabelKind.means B.LabelKind.means A.LabelKind.freeing B.LabelKind.freeing };

    fn empty() -> Pair<A, B> {
        Pair {
            first: A::empty(),
            second: B::empty(),
        }
    }

    fn join(self, other: Pair<A, B>) -> Pair<A, B> {
        Pair {
            first: self.first.join(other.first),
            second: self.second.join(other.second),
        }
    }

    fn carry(self, passage: Pair<A::Passage, B::Passage>) -> Pair<A, B> {
        Pair {
            first: self.first.carry(passage.first),
            second: self.second.carry(passage.second),
        }
    }

    fn is_free(self, day: Day) -> bool {
        self.first.is_free(day) && self.second.is_free(day)
    }

    fn to_row(self) -> Pair<A::Row, B::Row> {
        Pair {
            first: self.first.to_row(),
            second: self.second.to_row(),
        }
    }

    fn from_row(row: Pair<A::Row, B::Row>) -> Pair<A, B> {
        Pair {
            first: A::from_row(row.first),
            second: B::from_row(row.second),
        }
    }

    fn passage_to_row(passage: Pair<A::Passage, B::Passage>) -> Pair<A::PassageRow, B::PassageRow> {
        Pair {
            first: A::passage_to_row(passage.first),
            second: B::passage_to_row(passage.second),
        }
    }

    fn passage_from_row(row: Pair<A::PassageRow, B::PassageRow>) -> Pair<A::Passage, B::Passage> {
        Pair {
            first: A::passage_from_row(row.first),
            second: B::passage_from_row(row.second),
        }
    }
}
