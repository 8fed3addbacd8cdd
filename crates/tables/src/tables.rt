// The tables of a store. The caller owns them, and lends them to the store until its last use.
use common::{PlaceNumber, Rank};
use links::{Heads, LinkRow};

// R are the rows of labels, S those of passages. The first six have an entry for each place, by its number; `order` has the
// places by their ranks. `marks` has a byte for each place, zero outside a search. A store may be made over them whatever they hold.
#[derive(Drop)]
pub struct Tables<R: Copy, S: Copy> {
    // Columns, and no vector of entries: the caller lends them one by one, and each may be longer than the store.
    pub present: Vec<bool>,
    pub own: Vec<R>,
    pub labels: Vec<R>,
    pub ranks: Vec<Rank>,
    pub order: Vec<PlaceNumber>,
    pub heads: Vec<Heads>,
    pub links: Vec<LinkRow<S>>,
    pub marks: Vec<u8>,
}
