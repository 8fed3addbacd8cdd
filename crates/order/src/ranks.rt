// The order of ranks: for each place its rank and for each rank its place.
ghost use Rattle.std.specs.Prelude.{◌≡◌, ℕ, ◌+◌, ◌^◌, ◌<◌, ◌≤◌, length};
ghost use Rattle.paths.specs.Order.{Ranked, moved};
ghost use Rattle.order.specs.Tables.{rank_in, place_in, order_in, marked_in, Past};
ghost use Rattle.order.specs.Sharing.{Apart, Below, met, Dealt, Shuffled, Settled};

use super::marks::Marked;
use common::{PlaceNumber, Rank};

// The rank of p.
pub fn rank_at(rank_of: &[Rank], p: PlaceNumber) -> Rank
    requires { p.0 < length rank_of.now }
    ensures { result.0 ≡ rank_in rank_of.now p.0 }
{
    rank_of[p.index()]
}

// The place that has the rank r.
pub fn place_with(place_at: &[PlaceNumber], r: Rank) -> PlaceNumber
    requires { r.0 < length place_at.now }
    ensures { result.0 ≡ place_in place_at.now r.0 }
{
    place_at[r.index()]
}

// Two slices and no struct of both: `deal` writes the ranks by the order and `settle` the order by the ranks, and types say which each leaves.

// The ranks from low to high, both with them.
#[derive(Clone, Copy)]
pub(crate) struct Window {
    pub low: Rank,
    pub high: Rank,
    ghost rises: { low.0 ≤ high.0 },
}

// Gives the ranks from start on to the marked places with the ranks of the window, or to the others, in the order met; answers the rank after.
fn deal(
    ranks: &mut [Rank],
    order: &[PlaceNumber],
    marks: &Marked<'_>,
    window: Window,
    inside: bool,
    start: usize,
) -> usize
    requires few { (marks.now.n < 2 ^ 31) × (start ≤ marks.now.n) }
    requires sizes { (marks.now.n ≤ length ranks.old) × (marks.now.n ≤ length order.now) }
    requires order { (Apart marks.now.n (order_in marks.now.n order.now)) × (Below marks.now.n (order_in marks.now.n order.now)) }
    requires window { window.high.0 < marks.now.n }
    ensures dealt { Dealt (met inside (marked_in marks.now.n marks.now.bytes.now) window.low.0 (window.high.0 + 1) (order_in marks.now.n order.now)) start (rank_in ranks.old) (rank_in ranks.new) }
    ensures next { result ≡ start + length (met inside (marked_in marks.now.n marks.now.bytes.now) window.low.0 (window.high.0 + 1) (order_in marks.now.n order.now)) }
{
    let mut next = start;
    for &p in &order[window.low.index()..=window.high.index()] {
        if marks.has(p) == inside {
            ranks[p.index()] = Rank::new(next as u32);
            next += 1;
        }
    }
    next
}

// Sends the places at the ranks of the window to their own ranks: swaps until the one at hand stands at its rank, and goes on.
fn settle(ranks: &[Rank], order: &mut [PlaceNumber], window: Window)
    requires few { (window.high.0 < length order.old) × (window.high.0 < 2 ^ 31) }
    requires places { (i : ℕ) → i ≤ window.high.0 → place_in order.old i < length ranks.now }
    requires shuffled { Shuffled window.low.0 window.high.0 (rank_in ranks.now) (place_in order.old) }
    ensures { Settled window.low.0 window.high.0 (window.high.0 + 1) (rank_in ranks.now) (place_in order.old) (place_in order.new) }
{
    let top = window.high.index();
    let from = window.low.index();
    let mut r = from;
    // No `for`: it goes on only once the place at hand stands at its rank.
    while r <= top {
        let p = order[r];
        let own = ranks[p.index()].index();
        if own == r {
            r += 1;
        } else {
            order.swap(r, own);
        }
    }
}

// Shares the ranks of the window out again: first to the places outside the marked set, then to those in it, each in the order met.
pub(crate) fn share_out(
    ranks: &mut [Rank],
    order: &mut [PlaceNumber],
    marks: &Marked<'_>,
    window: Window,
)
    requires sizes { (marks.now.n < 2 ^ 31) × ((marks.now.n ≤ length ranks.old) × (marks.now.n ≤ length order.old)) }
    requires ranked { Ranked (rank_in ranks.old) (order_in marks.now.n order.old) }
    requires below { Below marks.now.n (order_in marks.now.n order.old) }
    requires window { window.high.0 < marks.now.n }
    ensures order { order_in marks.now.n order.new ≡ moved (marked_in marks.now.n marks.now.bytes.now) window.low.0 window.high.0 (order_in marks.now.n order.old) }
    ensures ranked { Ranked (rank_in ranks.new) (order_in marks.now.n order.new) }
    ensures below { Below marks.now.n (order_in marks.now.n order.new) }
    ensures past { Past marks.now.n ranks.old ranks.new order.old order.new }
{
    let start = window.low.index();
    let left = deal(ranks, order, marks, window, false, start);
    deal(ranks, order, marks, window, true, left);
    settle(ranks, order, window);
}

// Gives each of the n places its number as its rank.
pub fn first_ranks(rank_of: &mut [Rank], place_at: &mut [PlaceNumber], n: usize)
    requires { (n < 2 ^ 31) × ((n ≤ length rank_of.old) × (n ≤ length place_at.old)) }
    ensures ranks { (p : ℕ) → p < n → rank_in rank_of.new p ≡ p }
    ensures places { (r : ℕ) → r < n → place_in place_at.new r ≡ r }
    ensures past { Past n rank_of.old rank_of.new place_at.old place_at.new }
{
    for (p, rank) in rank_of[..n].iter_mut().enumerate() {
        *rank = Rank::new(p as u32);
    }
    for (r, place) in place_at[..n].iter_mut().enumerate() {
        *place = PlaceNumber::new(r as u32);
    }
}
