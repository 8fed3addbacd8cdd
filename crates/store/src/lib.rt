// The store: places with their labels and the links between them, in tables that the caller lends.
#![tactic(auto)]

pub mod grant;
pub mod permit;
pub mod store;

pub use permit::Permit;
pub use store::Store;
