// The order of ranks: for each place its rank and for each rank its place, in tables that the caller lends, or that a graph owns.
#![tactic(auto)]

ghost use Rattle.order.specs.Theorems.{OneOrder, Specimen, KeepsOrder, SamePaths};

mod graph;
mod marks;
mod ranks;
mod search;

pub use graph::Graph;
pub use marks::{Marked, is_marked};
pub use ranks::{first_ranks, place_with, rank_at};
pub use search::admit;

// The rule makes one order, and the one of the worked example.
pub fn rule_stands<P>()
    ensures one { OneOrder P }
    ensures specimen { Specimen }
{}

// Tables stay in order as links come and go, and what is said over a table's links holds over the ledger's.
pub fn order_stands<R, P>()
    ensures kept { KeepsOrder R }
    ensures paths { SamePaths R P }
{}
