// What a label kind is.
ghost use Rattle.std.specs.Prelude.{◌≡◌};
ghost use Rattle.paths.specs.Kind.{FreeLaws};
ghost use Rattle.kinds.specs.Meanings.{Meaning, Lawful, Tells};

use calendar::Day;

// A label, its passages, and the plain rows in which both lie in a table. `means` says which value each label has and what the
// functions make of values. They answer by it, change nothing that they are handed and refuse nothing.
pub trait LabelKind: Copy + Eq {
    type Passage: Copy;

    type Row: Copy;

    type PassageRow: Copy;

    ghost means: { Meaning Self Self.Passage Self.Row Self.PassageRow };

    // Some row of each sort, for what a clause reads past the end of a table.
    ghost blank: { Self.Row };

    ghost blankpassage: { Self.PassageRow };

    fn empty() -> Self
        ensures { means.value result ≡ means.kind.empty };

    fn join(self, other: Self) -> Self
        ensures { means.value result ≡ means.kind.join (means.value self) (means.value other) };

    fn carry(self, passage: Self::Passage) -> Self
        ensures { means.value result ≡ means.kind.carry passage (means.value self) };

    fn is_free(self, day: Day) -> bool
        ensures { result ≡ means.free day.number (means.value self) };

    // Not a `From` each way: `means` ties the rows to what they stand for.
    fn to_row(self) -> Self::Row
        ensures { means.stands result ≡ self };

    fn from_row(row: Self::Row) -> Self
        ensures { result ≡ means.stands row };

    // Labels and passages have row functions of their own: both stand in the one record `means`, and the kind gives them.
    fn passage_to_row(passage: Self::Passage) -> Self::PassageRow
        ensures { means.leads result ≡ passage };

    fn passage_from_row(row: Self::PassageRow) -> Self::Passage
        ensures { result ≡ means.leads row };

    // `==` answers yes for equal labels and for no others.
    ghost tells: { Tells Self.eq };

    ghost lawful: { Lawful means };

    ghost freeing: { FreeLaws means.kind means.free };
}
