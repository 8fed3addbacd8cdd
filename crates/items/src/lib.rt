// The items of a text, and the line around a byte of it.
#![tactic(auto)]

pub mod item;
pub mod law;
pub mod line;
pub mod run;

pub use item::{Item, item_at};
pub use line::{before_break, line_at};
pub use run::number_in;
