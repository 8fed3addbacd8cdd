// Places that are linked, in the order of their ranks.
ghost use Rattle.std.specs.Prelude.{◌≤◌};
ghost use Rattle.links.specs.LinkTable.{held, places as places_in};
ghost use Rattle.order.specs.Tables.{Ordered};

use common::{PlaceNumber, Rank};
use links::LinkTable;

mod calls;

// For each place its rank and for each rank its place: every link leads from a lower rank to a higher.
// That a place is below the size, and that marks are clean, are clauses and no types: a place number is a plain number,
// and no struct holds both the graph and the caller's mark bytes.
#[derive(Drop)]
pub struct Graph<R: Copy> {
    links: LinkTable<R>,
    ranks: Vec<Rank>,
    order: Vec<PlaceNumber>,
    places: usize,
    ghost ordered: { Ordered places ranks.items order.items (held links) },
    ghost wide: { places ≤ places_in links },
}
