// Locks and their passages.
use super::level::Level;

mod label;
mod making;

// A lock from 0, which is empty, to 3.
pub type Lock = Level<3>;

// The highest level that a passage lets through, from 0 to 2.
pub type Ceiling = Level<2>;

// Not an `Option`: as in the passages of expiries, `Pass` says that all goes through.
#[derive(Clone, Copy, PartialEq, Eq, Debug, Hash)]
pub enum LockPassage {
    Pass,
    // the lower of the two
    Most(Ceiling),
}
