// Recomputing the labels after an edit: one walk up the ranks, over slices that the caller lends or over a graph.
#![tactic(auto)]

mod climb;
mod graph;
mod label;
mod lent;
mod marks;
mod walk;

pub use graph::recompute;
pub use walk::recompute_lent;
