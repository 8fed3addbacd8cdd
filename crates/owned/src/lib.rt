// Tables that their caller owns from one call to the next, with the graph in them: each call lends them to columns, and has them back.
#![tactic(auto)]

mod calls;
mod making;
mod owner;

pub use calls::{clear, discard_in, link_in, own_in, unlink_in};
pub use owner::OwnedTables;
