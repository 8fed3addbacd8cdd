// The parts that expiries, claims, locks and their passages are written as.
#![tactic(auto)]

mod args;
pub mod claims;
pub mod expiry;
pub mod lock;
mod order;
mod rising;

pub use claims::{ClaimsText, OnlyText};
pub use expiry::{StepText, UntilText};
pub use lock::{LockText, MostText};
