// The label of one place.
ghost use Rattle.std.specs.Prelude.{◌≡◌, ◌<◌, ◌≤◌, true, false, length, ◌≢◌};
ghost use Rattle.paths.specs.Walk.{Put};
ghost use Rattle.recompute.specs.Lent.{size, linked};
ghost use Rattle.recompute.specs.Tables.{value_in, gathered};

use crate::lent::LentGraph;
use common::PlaceNumber;
use kinds::LabelKind;

// The own label of p joined with what the links into p carry.
// Slices beside the graph and no struct of them: it would carry a loan for each, and each function would have to say of each that it is the same.
fn gather<K: LabelKind>(
    own: &[K::Row],
    labels: &[K::Row],
    graph: &LentGraph<'_, K::PassageRow>,
    p: PlaceNumber,
) -> K
    requires sizes { (size graph.now ≤ length own.now) × (size graph.now ≤ length labels.now) }
    requires place { p.0 < size graph.now }
    ensures { K.LabelKind.means.value result ≡ gathered K.LabelKind.means (size graph.now) own.now labels.now (linked graph.now) p.0 }
{
    let mut sum = K::from_row(own[p.index()]);
    for l in graph.entering(p) {
        let label = K::from_row(labels[l.source.index()]);
        sum = sum.join(label.carry(K::passage_from_row(l.passage)));
    }
    sum
}

// Recomputes the label of p; whether it changed.
pub(crate) fn relabel<K: LabelKind>(
    own: &[K::Row],
    labels: &mut [K::Row],
    graph: &LentGraph<'_, K::PassageRow>,
    p: PlaceNumber,
) -> bool
    requires sizes { (size graph.now ≤ length own.now) × (size graph.now ≤ length labels.old) }
    requires place { p.0 < size graph.now }
    ensures put { Put (value_in K.LabelKind.means (size graph.now) labels.old) (value_in K.LabelKind.means (size graph.now) labels.new) p.0 (gathered K.LabelKind.means (size graph.now) own.now labels.old (linked graph.now) p.0) }
    ensures changed { result ≡ true → value_in K.LabelKind.means (size graph.now) labels.new p.0 ≢ value_in K.LabelKind.means (size graph.now) labels.old p.0 }
    ensures kept { result ≡ false → labels.new ≡ labels.old }
{
    let label = gather::<K>(own, labels, graph, p);
    if label == K::from_row(labels[p.index()]) {
        return false;
    }
    labels[p.index()] = label.to_row();
    true
}
