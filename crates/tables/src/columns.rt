// The columns of a store, where they lie in the tables that the caller lends.
ghost use Rattle.std.specs.Prelude.{◌<◌, ◌≤◌, vec_len};
ghost use Rattle.links.specs.Table.{Kept, links as links_in};
ghost use Rattle.order.specs.Marks.{Clean};
ghost use Rattle.order.specs.Tables.{Ordered};

use super::tables::Tables;
use links::Tally;

// The entries of the places, which come first in the lent tables, and the links between these places. `marks` has a byte for each place, zero outside a search.
// Where there are no places, the tables may hold anything. Each call that changes them says that the loan is the same (`SameLoan`): so who lends the tables knows what they hold afterwards.
#[derive(Drop)]
pub struct Columns<'a, R: Copy, S: Copy> {
    pub tables: &'a mut Tables<R, S>,
    pub tally: Tally,
    pub places: usize,
    ghost flags: { (places ≤ vec_len tables.now.present) × (places ≤ vec_len tables.now.marks) },
    ghost rows: { (places ≤ vec_len tables.now.own) × (places ≤ vec_len tables.now.labels) },
    ghost wide: { places ≤ vec_len tables.now.heads },
    ghost kept: { (0 < places → Kept tables.now.links.items tables.now.heads.items tally) },
    ghost ordered: { (0 < places → Ordered places tables.now.ranks.items tables.now.order.items (links_in tables.now.links.items)) },
    ghost clean: { Clean places tables.now.marks.items },
}
