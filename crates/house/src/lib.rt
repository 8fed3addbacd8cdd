// Expiries, sets of claims and locks, each a label kind, and the house label.
#![tactic(auto)]

pub mod claims;
pub mod count;
pub mod expiry;
pub mod level;
pub mod lock;
mod word;

pub use claims::Claims;
pub use count::Count;
pub use expiry::{Expiry, ExpiryPassage, ExpiryPassageRow, Span, YearCount};
use kinds::Pair;
pub use level::Level;
pub use lock::{Ceiling, Lock, LockPassage};

// What the house says of a place: until when it is held, by whom, and how firmly.
pub type House = Pair<Expiry, Pair<Claims, Lock>>;
