// Expiries as a label kind: the later of two, free once the day is over.
ghost use Rattle.std.specs.Prelude.{◌≡◌, ◌≤◌};
ghost use Rattle.house.specs.Expiries.{expiry_means, shifted};
ghost use Rattle.house.specs.ExpiryLaws.{expiry_tells, expiry_lawful, expiry_freeing};
ghost use Rattle.house.specs.declared.expiry.ExpiryPassageRow.{ExpiryPassageRow};

use super::{Expiry, ExpiryPassage, ExpiryPassageRow, Span, YearCount};
use calendar::Day;
use kinds::LabelKind;

impl Expiry {
    // An empty expiry stays empty, and none goes past the last day.
    fn shift(self, days: u32) -> Expiry
        requires { days ≤ 36500 }
        ensures { result.number ≡ shifted days self.number }
    {
        if self.number == 0 {
            return self;
        }
        Expiry {
            number: (self.number + days).min(Day::LAST),
        }
    }
}

impl LabelKind for Expiry {
    type Passage = ExpiryPassage;

    // The number. One past the last day is read as that day.
    type Row = u32;

    type PassageRow = ExpiryPassageRow;

    ghost means = { expiry_means };

    ghost blank = { 0 };

    ghost blankpassage = { ExpiryPassageRow.Pass };

    ghost tells = { expiry_tells };

    ghost lawful = { expiry_lawful };

    ghost freeing = { expiry_freeing };

    fn empty() -> Expiry {
        Expiry { number: 0 }
    }

    fn join(self, other: Expiry) -> Expiry {
        self.max(other)
    }

    fn carry(self, passage: ExpiryPassage) -> Expiry {
        match passage {
            ExpiryPassage::Pass => self,
            ExpiryPassage::Cap(day) => Expiry {
                number: self.number.min(day.number),
            },
            ExpiryPassage::Add(span) => self.shift(span.count),
            ExpiryPassage::Years(years) => self.shift(365 * years.count),
        }
    }

    fn is_free(self, day: Day) -> bool {
        self.number < day.number
    }

    fn to_row(self) -> u32 {
        self.number
    }

    fn from_row(row: u32) -> Expiry {
        Expiry {
            number: row.min(Day::LAST),
        }
    }

    fn passage_to_row(passage: ExpiryPassage) -> ExpiryPassageRow {
        match passage {
            ExpiryPassage::Pass => ExpiryPassageRow::Pass,
            ExpiryPassage::Cap(day) => ExpiryPassageRow::Cap(day.number),
            ExpiryPassage::Add(span) => ExpiryPassageRow::Add(span.count),
            ExpiryPassage::Years(years) => ExpiryPassageRow::Years(years.count),
        }
    }

    fn passage_from_row(row: ExpiryPassageRow) -> ExpiryPassage {
        match row {
            ExpiryPassageRow::Pass => ExpiryPassage::Pass,
            ExpiryPassageRow::Cap(number) => ExpiryPassage::Cap(Day {
                number: number.clamp(1, Day::LAST),
            }),
            ExpiryPassageRow::Add(days) => ExpiryPassage::Add(Span::nearest(days)),
            ExpiryPassageRow::Years(count) => ExpiryPassage::Years(YearCount::nearest(count)),
        }
    }
}
