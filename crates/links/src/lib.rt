// The links that exist, at most one for each source and target, in slices that the caller lends, or in a table that owns its memory.
#![tactic(auto)]

ghost use Rattle.links.specs.Theory.{Follows};

mod row;
mod slices;
mod table;
mod threads;

pub use row::{Heads, Link, LinkRow, Side, Slot, Tally};
pub use slices::{
    count, find, first, insert, leaves, link_at, links_at, next, remove, remove_entering, reset,
};
pub use table::{LinkTable, LinksAt};

// What the calls make of a table is what they make of the ledger's links, whatever the passages' rows mean.
pub fn follows_ledger<R, V, P>()
    ensures { Follows R V P }
{}
