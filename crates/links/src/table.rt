// The link table: rows and heads in memory that the caller hands over, and the links that they hold.
ghost use Rattle.links.specs.Table.{Kept};

use crate::row::{Heads, LinkRow, Tally};

mod calls;
mod links_at;

pub use links_at::LinksAt;

// The links that exist, at most one for each source and target. What it does is what the calls over lent slices do.
// That a place is below `places` is a clause and no type: a place number is a plain number, and only the store says whether it has it.
#[derive(Drop)]
pub struct LinkTable<R: Copy> {
    rows: Vec<LinkRow<R>>,
    heads: Vec<Heads>,
    tally: Tally,
    ghost kept: { Kept rows.items heads.items tally },
}
