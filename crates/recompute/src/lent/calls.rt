// What a walk asks of a graph.
ghost use Rattle.std.specs.Prelude.{◌≡◌, ◌<◌};
ghost use Rattle.links.specs.declared.row.Side.TheVariants.{Leaving, Entering};
ghost use Rattle.links.specs.LinksAt.{LinksOf, rest};
ghost use Rattle.order.specs.Tables.{rank_in, place_in};
ghost use Rattle.recompute.specs.Lent.{size, linked, ranks_of, order_of};

use super::LentGraph;
use common::{PlaceNumber, Rank};
use links::{LinksAt, Side, links_at};
use order::{place_with, rank_at};

impl<R: Copy> LentGraph<'_, R> {
    // The rank of p.
    pub(crate) fn rank(&self, p: PlaceNumber) -> Rank
        requires { p.0 < size self.now }
        ensures { result.0 ≡ rank_in (ranks_of self.now) p.0 }
    {
        rank_at(self.ranks, p)
    }

    // The place that has the rank r.
    pub(crate) fn place(&self, r: Rank) -> PlaceNumber
        requires { r.0 < size self.now }
        ensures at { result.0 ≡ place_in (order_of self.now) r.0 }
        ensures inside { result.0 < size self.now }
    {
        place_with(self.order, r)
    }

    // The links that leave p, by rising number of their targets.
    pub(crate) fn leaving(&self, p: PlaceNumber) -> LinksAt<'_, R>
        requires { p.0 < size self.now }
        ensures { LinksOf Leaving (linked self.now) (size self.now) p.0 (rest result) }
    {
        links_at(Side::Leaving, self.rows, self.heads, self.tally, p)
    }

    // The links that enter p, by rising number of their sources.
    pub(crate) fn entering(&self, p: PlaceNumber) -> LinksAt<'_, R>
        requires { p.0 < size self.now }
        ensures { LinksOf Entering (linked self.now) (size self.now) p.0 (rest result) }
    {
        links_at(Side::Entering, self.rows, self.heads, self.tally, p)
    }
}
