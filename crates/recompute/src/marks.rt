// The marks of a walk.
ghost use Rattle.std.specs.Prelude.{◌≡◌, ℕ, ◌<◌, ◌≤◌, ◌⊎◌, slice_index};
ghost use Rattle.std.specs.List.{ContainsAt as Has};
ghost use Rattle.links.specs.declared.row.Link.{Link};
ghost use Rattle.links.specs.Table.{Leads};
ghost use Rattle.order.specs.Loans.{SameLoan};
ghost use Rattle.order.specs.Tables.{rank_in};
ghost use Rattle.recompute.specs.Lent.{size, linked, ranks_of};

use crate::lent::LentGraph;
use common::{PlaceNumber, Rank};
use order::Marked;

// Marks the places that links lead to from p; answers the highest of their ranks and `last`.
pub(crate) fn mark_targets<R: Copy>(
    graph: &LentGraph<'_, R>,
    marks: &mut Marked<'_>,
    p: PlaceNumber,
    last: Rank,
) -> Rank
    requires place { p.0 < size graph.now }
    requires places { marks.old.n ≡ size graph.now }
    ensures same { SameLoan marks.old marks.new }
    ensures all { (l : Link R) → Has (linked graph.now) l → l.source.0 ≡ p.0 → (slice_index marks.new.bytes.now l.target.0 ≡ 1) × (rank_in (ranks_of graph.now) l.target.0 ≤ result.0) }
    ensures only { (q : ℕ) → (slice_index marks.new.bytes.now q ≡ slice_index marks.old.bytes.now q) ⊎ ((slice_index marks.new.bytes.now q ≡ 1) × Leads (linked graph.now) p.0 q) }
    ensures rises { last.0 ≤ result.0 }
    ensures reach { (result.0 ≡ last.0) ⊎ ((q : ℕ) × Leads (linked graph.now) p.0 q × (result.0 ≡ rank_in (ranks_of graph.now) q)) }
{
    let mut top = last;
    for l in graph.leaving(p) {
        marks.set(l.target);
        top = top.max(graph.rank(l.target));
    }
    top
}
