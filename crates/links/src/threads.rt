// Threads through rows, and the heads at which they begin.
ghost use Rattle.std.specs.Prelude.{◌≡◌, ◌-◌, ◌<◌, None, Some, MatchOption, IfSome, length, slice_get, slice_index_or};
ghost use Rattle.links.specs.declared.row.LinkRow.TheVariants.{Used};
ghost use Rattle.links.specs.Threads.{Sorted, Gap};
ghost use Rattle.links.specs.Table.{IsUsed, IsUnused, at, view, head_of, no_heads, link_at, number_or, Spliced, Stacked, Headless};

use crate::row::{Heads, Link, LinkRow, Side, Slot};
use common::PlaceNumber;

// The links from a place hang on one thread and the links to it on another, each in rising order of the other end;
// the unused rows lie on one another. Slots and no boxes: the caller's memory is fixed, and nothing is allocated.

// A gap in a thread: behind the slot `prev`, or at the thread's head, and before the slot `at`, or at its end.
#[derive(Clone, Copy)]
pub(crate) struct Spot {
    pub(crate) prev: Option<Slot>,
    pub(crate) at: Slot,
}

// The link in the slot s, and the heads of the rest of its threads.
pub(crate) fn link_in<R: Copy>(rows: &[LinkRow<R>], s: Slot) -> Option<(Link<R>, Heads)>
    ensures { MatchOption result (link_at rows.now s.0 ≡ None) (λ r. slice_get rows.now s.0 ≡ Some (Used r.0 r.1)) }
{
    match rows.get(s.0) {
        Some(LinkRow::Used(link, rest)) => Some((*link, *rest)),
        _ => None,
    }
}

// The row on which the unused row s lies.
pub(crate) fn below<R: Copy>(rows: &[LinkRow<R>], s: Slot) -> Slot
    requires { IsUnused rows.now s.0 }
    ensures { result.0 ≡ (at rows.now s.0).leaving }
{
    match rows[s.0] {
        LinkRow::Used(..) => unreachable!(),
        LinkRow::Unused { below, .. } => below,
    }
}

// The slot at which the thread of p begins.
pub(crate) fn head(side: Side, heads: &[Heads], p: PlaceNumber) -> Slot
    requires { p.0 < length heads.now }
    ensures { result.0 ≡ head_of side (slice_index_or heads.now p.0 no_heads) }
{
    heads[p.index()].on(side)
}

// Where a link to or from the place `end` belongs in the thread of p.
pub(crate) fn seek<R: Copy>(
    side: Side,
    rows: &[LinkRow<R>],
    heads: &[Heads],
    p: PlaceNumber,
    end: PlaceNumber,
) -> Spot
    requires sorted { Sorted (view side rows.now heads.now) (length heads.now) }
    requires inside { p.0 < length heads.now }
    ensures gap { Gap (view side rows.now heads.now) p.0 end.0 (number_or (length rows.now) result.prev) result.at.0 }
    ensures behind { IfSome result.prev (λ s. IsUsed rows.now s.0) }
{
    let mut prev = None;
    let mut at = head(side, heads, p);
    while let Some((link, rest)) = link_in(rows, at) {
        if link.other_end(side) >= end {
            break;
        }
        prev = Some(at);
        at = rest.on(side);
    }
    Spot { prev, at }
}

// Lets the thread of p go on to s behind `prev`, or begin with s.
pub(crate) fn splice<R: Copy>(
    side: Side,
    rows: &mut [LinkRow<R>],
    heads: &mut [Heads],
    prev: Option<Slot>,
    p: PlaceNumber,
    s: Slot,
)
    requires inside { p.0 < length heads.old }
    requires behind { IfSome prev (λ q. IsUsed rows.old q.0) }
    ensures { Spliced side rows.old rows.new heads.old heads.new (number_or (length rows.old) prev) p.0 s.0 }
{
    match prev {
        Some(q) => {
            let Some((link, rest)) = link_in(rows, q) else {
                unreachable!()
            };
            rows[q.0] = LinkRow::Used(link, rest.with(side, s));
        }
        None => {
            let first = heads[p.index()];
            heads[p.index()] = first.with(side, s);
        }
    }
}

// Lays each row on the one before, and answers the topmost.
pub(crate) fn stack<R: Copy>(rows: &mut [LinkRow<R>]) -> Slot
    ensures stacked { Stacked rows.new (length rows.new) }
    ensures top { result.0 ≡ length rows.new - 1 }
{
    for (k, row) in rows.iter_mut().enumerate() {
        *row = LinkRow::Unused {
            under: k,
            below: Slot(k.saturating_sub(1)),
        };
    }
    Slot(rows.len().saturating_sub(1))
}

// Lets no link hang at any place.
pub(crate) fn behead(heads: &mut [Heads], none: Slot)
    ensures { Headless heads.new none.0 (length heads.new) }
{
    heads.fill(Heads {
        leaving: none,
        entering: none,
    });
}
