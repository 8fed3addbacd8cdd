// A graph in slices that the caller lends.
ghost use Rattle.std.specs.Prelude.{◌≤◌, length};
ghost use Rattle.links.specs.Table.{Kept, links as links_in};
ghost use Rattle.order.specs.Tables.{Ordered};

use common::{PlaceNumber, Rank};
use links::{Heads, LinkRow, Tally};

mod calls;

// For each place its rank, for each rank its place, and the links in their rows, as a walk reads them.
#[derive(Drop)]
pub(crate) struct LentGraph<'a, R: Copy> {
    pub ranks: &'a [Rank],
    pub order: &'a [PlaceNumber],
    pub rows: &'a [LinkRow<R>],
    pub heads: &'a [Heads],
    pub tally: Tally,
    pub places: usize,
    ghost kept: { Kept rows.now heads.now tally },
    ghost ordered: { Ordered places ranks.now order.now (links_in rows.now) },
    ghost wide: { places ≤ length heads.now },
}
