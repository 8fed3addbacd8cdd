// The tables that a caller lends to a store, the checks of their sizes, and the columns of the store in them.
#![tactic(auto)]

pub mod columns;
pub mod entry;
pub mod graph;
pub mod making;
pub mod tables;

pub use columns::Columns;
pub use entry::{read, write};
pub use making::{MOST_LINKS, MOST_PLACES, clear};
pub use tables::Tables;
