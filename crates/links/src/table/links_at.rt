// The links at a place, one after another.
ghost use Rattle.std.specs.Prelude.{◌≡◌, ⊤};
ghost use Rattle.links.specs.Table.{Climbing};

use crate::row::{Link, LinkRow, Side, Slot};
use crate::threads::link_in;
use std::alloc::AllocError;

// The links that leave or enter one place, by rising number of the other end.
#[derive(Drop)]
pub struct LinksAt<'a, R: Copy> {
    pub(crate) rows: &'a [LinkRow<R>],
    pub(crate) side: Side,
    pub(crate) at: Slot,
    ghost climbing: { Climbing side rows.now },
}

// By hand: a struct with a ghost field derives no Clone.
impl<R: Copy> Clone for LinksAt<'_, R> {
    ghost is_clone = { λ s r. r ≡ s };

    ghost is_infallible = { λ _. ⊤ };

    fn clone(&self) -> Result<Self, AllocError> {
        Ok(LinksAt {
            rows: self.rows,
            side: self.side,
            at: self.at,
        })
    }
}

impl<R: Copy> Iterator for LinksAt<'_, R> {
    ghost use Rattle.std.specs.Iterator.{YieldsFirst, item_count};
    ghost use Rattle.links.specs.LinksAt.{rest};

    type Item = Link<R>;

    ghost next_gives = { YieldsFirst rest };

    ghost remaining = { item_count rest };

    fn next(&mut self) -> Option<Link<R>> {
        let (link, heads) = link_in(self.rows, self.at)?;
        self.at = heads.on(self.side);
        Some(link)
    }
}
