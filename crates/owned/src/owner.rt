// Tables that their caller owns between two calls.
ghost use Rattle.std.specs.Prelude.{◌<◌, ◌≤◌, vec_len};
ghost use Rattle.links.specs.Table.{Kept, links as links_in};
ghost use Rattle.order.specs.Marks.{Clean};
ghost use Rattle.order.specs.Tables.{Ordered};

use links::Tally;
use tables::Tables;

// The eight tables, with the tally of the links and the number of places that they hold. A store has tables lent for as long as it stands;
// these are their caller's again after each call.
#[derive(Drop)]
pub struct OwnedTables<R: Copy, S: Copy> {
    pub tables: Tables<R, S>,
    pub tally: Tally,
    pub places: usize,
    ghost flags: { (places ≤ vec_len tables.present) × (places ≤ vec_len tables.marks) },
    ghost rows: { (places ≤ vec_len tables.own) × (places ≤ vec_len tables.labels) },
    ghost wide: { places ≤ vec_len tables.heads },
    ghost kept: { Kept tables.links.items tables.heads.items tally },
    ghost ordered: { Ordered places tables.ranks.items tables.order.items (links_in tables.links.items) },
    ghost clean: { Clean places tables.marks.items },
}
