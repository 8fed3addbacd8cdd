// Reading a text item by item: each function answers what it read and leaves the reader behind it, or the first fault and leaves the reader as it was.
#![tactic(auto)]

pub mod fault;
pub mod item;
pub mod reader;
pub mod value;

pub use fault::{Fault, Layer, not_allowed, out_of_range};
pub use item::Mark;
pub use reader::Reader;
