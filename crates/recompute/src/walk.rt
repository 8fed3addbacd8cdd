// One walk up the ranks.
ghost use Rattle.std.specs.Prelude.{◌≡◌, ℕ, ◌+◌, ◌<◌, ◌≤◌, List, length, drop};
ghost use Rattle.order.specs.Loans.{SameLoan};
ghost use Rattle.links.specs.Table.{Kept, links as links_in};
ghost use Rattle.order.specs.Marks.{Clean, Beyond};
ghost use Rattle.order.specs.Tables.{Ordered};
ghost use Rattle.recompute.specs.Lent.{size, linked, ranks_of};
ghost use Rattle.recompute.specs.Tables.{Recomputes};
ghost use Rattle.recompute.specs.Pending.{Climbed};

use super::climb::Climb;
use super::label::relabel;
use super::marks::mark_targets;
use crate::lent::LentGraph;
use common::{PlaceNumber, Rank};
use kinds::LabelKind;
use links::{Heads, LinkRow, Tally};
use order::Marked;

// The place p, of the rank r: it is reported and recomputed if it is marked, and if its label changed the places that it links to are marked.
// Slices beside the graph and no struct of them: it would carry a loan for each, and each function would have to say of each that it is the same.
fn step<K: LabelKind>(
    own: &[K::Row],
    labels: &mut [K::Row],
    graph: &LentGraph<'_, K::PassageRow>,
    marks: &mut Marked<'_>,
    r: Rank,
    list: &mut [PlaceNumber],
    climb: Climb,
) -> Climb
    requires sizes { (size graph.now ≤ length own.now) × (size graph.now ≤ length labels.old) }
    requires places { marks.old.n ≡ size graph.now }
    requires rank { r.0 < size graph.now }
    requires room { (climb.reported < length list.old) × ((climb.changed ≤ climb.reported) × (climb.last.0 < size graph.now)) }
    ensures climbed { (e : ℕ) (before : List (K.Row)) → e < size graph.now → Climbed K.LabelKind.means (size graph.now) own.now (ranks_of graph.now) (linked graph.now) e before r.0 climb labels.old marks.old.bytes.now list.old → Climbed K.LabelKind.means (size graph.now) own.now (ranks_of graph.now) (linked graph.now) e before (r.0 + 1) result labels.new marks.new.bytes.now list.new }
    ensures rest { drop result.reported list.new ≡ drop result.reported list.old }
    ensures same { SameLoan marks.old marks.new }
    ensures beyond { Beyond (size graph.now) marks.old.bytes.now marks.new.bytes.now }
    ensures counts { (result.changed ≤ result.reported) × ((climb.reported ≤ result.reported) × ((result.reported ≤ climb.reported + 1) × (result.last.0 < size graph.now))) }
{
    let p = graph.place(r);
    if !marks.has(p) {
        return climb;
    }
    list[climb.reported] = p;
    let reported = climb.reported + 1;
    if !relabel::<K>(own, labels, graph, p) {
        return Climb { reported, ..climb };
    }
    let last = mark_targets(graph, marks, p, climb.last);
    Climb {
        reported,
        changed: climb.changed + 1,
        last,
    }
}

// Walks up the ranks from the marked place e, until no place is left to be recomputed.
fn walk<K: LabelKind>(
    own: &[K::Row],
    labels: &mut [K::Row],
    graph: &LentGraph<'_, K::PassageRow>,
    marks: &mut Marked<'_>,
    e: PlaceNumber,
    list: &mut [PlaceNumber],
) -> Climb
    requires sizes { (size graph.now ≤ length own.now) × (size graph.now ≤ length labels.old) × (size graph.now ≤ length list.old) }
    requires places { marks.old.n ≡ size graph.now }
    requires place { e.0 < size graph.now }
    requires clean { Clean (size graph.now) marks.old.bytes.now }
    ensures climbed { Climbed K.LabelKind.means (size graph.now) own.now (ranks_of graph.now) (linked graph.now) e.0 labels.old (size graph.now) result labels.new marks.new.bytes.now list.new }
    ensures rest { drop result.reported list.new ≡ drop result.reported list.old }
    ensures same { SameLoan marks.old marks.new }
    ensures beyond { Beyond (size graph.now) marks.old.bytes.now marks.new.bytes.now }
    ensures room { result.reported ≤ size graph.now }
{
    let first = graph.rank(e);
    marks.set(e);
    let mut climb = Climb {
        reported: 0,
        changed: 0,
        last: first,
    };
    let mut r = first.index();
    // No `for`: the end moves as places are marked.
    while r <= climb.last.index() {
        climb = step::<K>(own, labels, graph, marks, Rank::new(r as u32), list, climb);
        r += 1;
    }
    climb
}

// Recomputes the labels after an edit at e, and writes the reported places to the list, in rising rank.
// Answers how many places it reported, and how many changed. The first n places are those of the tables.
pub fn recompute_lent<K: LabelKind>(
    own: &[K::Row],
    labels: &mut [K::Row],
    rank_of: &[Rank],
    place_at: &[PlaceNumber],
    rows: &[LinkRow<K::PassageRow>],
    heads: &[Heads],
    tally: Tally,
    marks: &mut [u8],
    n: usize,
    e: PlaceNumber,
    list: &mut [PlaceNumber],
) -> (usize, usize)
    requires kept { Kept rows.now heads.now tally }
    requires ordered { Ordered n rank_of.now place_at.now (links_in rows.now) }
    requires sizes { (n ≤ length own.now) × ((n ≤ length labels.old) × ((n ≤ length heads.now) × ((n ≤ length marks.old) × (n ≤ length list.old)))) }
    requires place { e.0 < n }
    requires clean { Clean n marks.old }
    ensures recomputes { Recomputes K.LabelKind.means n own.now (links_in rows.now) rank_of.now e.0 labels.old labels.new list.new result }
    ensures marks { marks.new ≡ marks.old }
    ensures rest { drop result.0 list.new ≡ drop result.0 list.old }
{
    let graph = LentGraph {
        ranks: rank_of,
        order: place_at,
        rows,
        heads,
        tally,
        places: n,
    };
    let mut marked = Marked { bytes: marks, n };
    let climb = walk::<K>(own, labels, &graph, &mut marked, e, list);
    (climb.reported, climb.changed)
}
