// What every layer shares: place numbers and ranks, and the refusals with their numbers.
#![tactic(auto)]

pub mod number;
pub mod refusal;

pub use number::{PlaceNumber, Rank};
pub use refusal::Refusal;
