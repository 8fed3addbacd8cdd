// The walk over a graph that owns its tables.
ghost use Rattle.std.specs.Prelude.{◌≡◌, ◌<◌, ◌≤◌, length, drop};
ghost use Rattle.order.specs.Marks.{Clean};
ghost use Rattle.order.specs.Graph.{size, linked, ranks_of};
ghost use Rattle.recompute.specs.Tables.{Recomputes};

use super::walk::recompute_lent;
use common::PlaceNumber;
use kinds::LabelKind;
use order::Graph;

// Recomputes the labels after an edit at e, and writes the reported places to the list, in rising rank.
// Answers how many places it reported, and how many changed.
pub fn recompute<K: LabelKind>(
    own: &[K::Row],
    labels: &mut [K::Row],
    graph: &Graph<K::PassageRow>,
    marks: &mut [u8],
    e: PlaceNumber,
    list: &mut [PlaceNumber],
) -> (usize, usize)
    requires sizes { (size graph.now ≤ length own.now) × (size graph.now ≤ length labels.old) × (size graph.now ≤ length marks.old) × (size graph.now ≤ length list.old) }
    requires place { e.0 < size graph.now }
    requires clean { Clean (size graph.now) marks.old }
    ensures recomputes { Recomputes K.LabelKind.means (size graph.now) own.now (linked graph.now) (ranks_of graph.now) e.0 labels.old labels.new list.new result }
    ensures marks { marks.new ≡ marks.old }
    ensures rest { drop result.0 list.new ≡ drop result.0 list.old }
{
    let links = graph.links();
    recompute_lent::<K>(
        own,
        labels,
        graph.ranks(),
        graph.order(),
        links.rows(),
        links.heads(),
        links.tally(),
        marks,
        graph.places(),
        e,
        list,
    )
}
