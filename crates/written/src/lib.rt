// Label kinds that can be written and read back.
#![tactic(auto)]

pub mod house_law;
mod house_texts;
pub mod kind;
pub mod law;
pub mod pair;

pub use kind::Written;
