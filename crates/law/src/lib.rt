// The law over every run of calls on a store, for each label kind.
#![tactic(auto)]

ghost use Rattle.law.specs.Law.{EveryRunKeepsTheLaw, OrderIsOne, EditHasOneAnswer};

use kinds::LabelKind;

// Every run of calls from a new store keeps the law, and the law leaves one order of ranks, and one answer to an edit.
pub fn law_stands<K: LabelKind>()
    ensures law { EveryRunKeepsTheLaw K.means.kind K.means.free }
    ensures order { OrderIsOne K.means.kind }
    ensures answer { EditHasOneAnswer K.means.kind K.means.free }
{}
