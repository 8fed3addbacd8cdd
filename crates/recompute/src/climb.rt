// How far a walk up the ranks has come.
use common::Rank;

// The places written to the list, those of them that changed, and the highest rank of a place that is to be recomputed.
// The list itself goes beside it: it is the caller's, and the contracts speak of it and of both counts.
#[derive(Clone, Copy)]
pub(crate) struct Climb {
    pub reported: usize,
    pub changed: usize,
    pub last: Rank,
}
