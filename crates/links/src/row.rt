// The rows of the link table, and the links that they hold.
ghost use Rattle.std.specs.Prelude.{◌≡◌};
ghost use Rattle.links.specs.Table.{head_of, key_of, slot_of, with_head};

use common::PlaceNumber;

// A slot of the link table. In a row or a head any number past the table is no slot: an Option takes twice the caller's memory.
#[derive(Clone, Copy, PartialEq, Eq, Debug)]
pub struct Slot(pub usize);

// A link is seen from its source, among the links leaving it, or from its target, among those entering it.
// No closures: three methods of one line each match on it.
#[derive(Clone, Copy, PartialEq, Eq, Debug)]
pub enum Side {
    Leaving,
    Entering,
}

// A link with its passage's row.
#[derive(Clone, Copy, PartialEq, Eq, Debug)]
pub struct Link<R> {
    pub source: PlaceNumber,
    pub target: PlaceNumber,
    pub passage: R,
}

// Where a thread of the links from a place begins, and one of the links to a place.
#[derive(Clone, Copy, PartialEq, Eq, Debug)]
pub struct Heads {
    pub leaving: Slot,
    pub entering: Slot,
}

// A row of the link table: a link and the heads of the rest of its two threads, or an unused row, which lies on `under` others.
#[derive(Clone, Copy, PartialEq, Eq, Debug)]
pub enum LinkRow<R> {
    Used(Link<R>, Heads),
    Unused { under: usize, below: Slot },
}

// How many rows are links, and the unused row on top.
#[derive(Clone, Copy)]
pub struct Tally {
    pub count: usize,
    pub free: Slot,
}

impl Slot {
    // The slot, if it is one of n.
    pub(crate) fn within(self, n: usize) -> Option<Slot>
        ensures { result ≡ slot_of n self.0 }
    {
        (self.0 < n).then_some(self)
    }
}

impl<R: Copy> Link<R> {
    // The place at the other end, by whose number a thread is sorted.
    pub(crate) fn other_end(self, side: Side) -> PlaceNumber
        ensures { result.0 ≡ key_of side self }
    {
        match side {
            Side::Leaving => self.target,
            Side::Entering => self.source,
        }
    }
}

impl Heads {
    pub(crate) fn on(self, side: Side) -> Slot
        ensures { result.0 ≡ head_of side self }
    {
        match side {
            Side::Leaving => self.leaving,
            Side::Entering => self.entering,
        }
    }

    pub(crate) fn with(self, side: Side, s: Slot) -> Heads
        ensures { result ≡ with_head side self s }
    {
        match side {
            Side::Leaving => Heads { leaving: s, ..self },
            Side::Entering => Heads {
                entering: s,
                ..self
            },
        }
    }
}
