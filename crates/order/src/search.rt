// Room for a new link: the search for a circle, and the new order where there is none, over tables and links that the caller lends.
ghost use Rattle.std.specs.Prelude.{◌≡◌, ◌+◌, ◌<◌, ◌≤◌, true, length, MatchResult};
ghost use Rattle.common.specs.declared.refusal.Refusal.TheVariants.{Circle};
ghost use Rattle.links.specs.Table.{Kept, links as row_links};
ghost use Rattle.order.specs.Loans.{SameLoan};
ghost use Rattle.order.specs.Tables.{rank_in, links_in, marked_in, Entered, Sound, Ordered};
ghost use Rattle.order.specs.Marks.{Clean, Beyond};
ghost use Rattle.order.specs.Forward.{Reached};
ghost use Rattle.order.specs.Admit.{Admitted, Circular};

use crate::marks::Marked;
use crate::ranks::{Window, rank_at, share_out};
use common::{PlaceNumber, Rank, Refusal};
use links::{Heads, LinkRow, Side, Tally};

// Whether a link leads to p from a marked place.
fn is_entered<R: Copy>(
    rows: &[LinkRow<R>],
    heads: &[Heads],
    tally: Tally,
    marks: &Marked<'_>,
    p: PlaceNumber,
) -> bool
    requires kept { Kept rows.now heads.now tally }
    requires inside { p.0 < length heads.now }
    ensures yes { result ≡ true → Entered (links_in (row_links rows.now)) (marked_in marks.now.n marks.now.bytes.now) p.0 }
    ensures no { Entered (links_in (row_links rows.now)) (marked_in marks.now.n marks.now.bytes.now) p.0 → result ≡ true }
{
    links::links_at(Side::Entering, rows, heads, tally, p).any(|l| marks.has(l.source))
}

// Marks the forward set of v: one walk up the ranks from v's to u's.
fn mark_forward<R: Copy>(
    rank_of: &[Rank],
    place_at: &[PlaceNumber],
    rows: &[LinkRow<R>],
    heads: &[Heads],
    tally: Tally,
    marks: &mut Marked<'_>,
    u: PlaceNumber,
    v: PlaceNumber,
)
    requires kept { Kept rows.now heads.now tally }
    requires sound { Sound marks.old.n rank_of.now place_at.now (row_links rows.now) }
    requires places { (u.0 < marks.old.n) × (v.0 < marks.old.n) }
    requires turn { rank_in rank_of.now v.0 ≤ rank_in rank_of.now u.0 }
    requires heads { marks.old.n ≤ length heads.now }
    requires clean { Clean marks.old.n marks.old.bytes.now }
    ensures same { SameLoan marks.old marks.new }
    ensures reached { Reached (links_in (row_links rows.now)) (rank_in rank_of.now) marks.old.n v.0 (rank_in rank_of.now u.0 + 1) (marked_in marks.old.n marks.new.bytes.now) }
    ensures beyond { Beyond marks.old.n marks.old.bytes.now marks.new.bytes.now }
{
    for &p in &place_at[rank_at(rank_of, v).index()..=rank_at(rank_of, u).index()] {
        if p == v || is_entered(rows, heads, tally, marks, p) {
            marks.set(p);
        }
    }
}

// Looks for a circle by the marks, and where there is none shares the ranks from v's to u's out again.
fn reorder<R: Copy>(
    rank_of: &mut [Rank],
    place_at: &mut [PlaceNumber],
    rows: &[LinkRow<R>],
    heads: &[Heads],
    tally: Tally,
    marks: &mut Marked<'_>,
    u: PlaceNumber,
    v: PlaceNumber,
) -> Result<(), Refusal>
    requires kept { Kept rows.now heads.now tally }
    requires sound { Sound marks.old.n rank_of.old place_at.old (row_links rows.now) }
    requires places { (u.0 < marks.old.n) × (v.0 < marks.old.n) }
    requires turn { rank_in rank_of.old v.0 ≤ rank_in rank_of.old u.0 }
    requires heads { marks.old.n ≤ length heads.now }
    requires clean { Clean marks.old.n marks.old.bytes.now }
    ensures same { SameLoan marks.old marks.new }
    ensures beyond { Beyond marks.old.n marks.old.bytes.now marks.new.bytes.now }
    ensures answer { MatchResult result (λ _. Admitted marks.old.n (row_links rows.now) u.0 v.0 rank_of.old rank_of.new place_at.old place_at.new) (λ e. (e ≡ Circle) × Circular (row_links rows.now) u.0 v.0 rank_of.old rank_of.new place_at.old place_at.new) }
{
    mark_forward(rank_of, place_at, rows, heads, tally, marks, u, v);
    if marks.has(u) {
        return Err(Refusal::Circle);
    }
    let window = Window {
        low: rank_at(rank_of, v),
        high: rank_at(rank_of, u),
    };
    share_out(rank_of, place_at, marks, window);
    Ok(())
}

// Makes room for a new link from u to v. A link from a lower rank to a higher moves no rank. Any other is refused if it closes a circle,
// and else the ranks from v's to u's are shared out again.
pub fn admit<R: Copy>(
    rank_of: &mut [Rank],
    place_at: &mut [PlaceNumber],
    rows: &[LinkRow<R>],
    heads: &[Heads],
    tally: Tally,
    marks: &mut [u8],
    n: usize,
    u: PlaceNumber,
    v: PlaceNumber,
) -> Result<(), Refusal>
    requires kept { Kept rows.now heads.now tally }
    requires sound { Ordered n rank_of.old place_at.old (row_links rows.now) }
    requires places { (u.0 < n) × (v.0 < n) }
    requires sizes { (n ≤ length marks.old) × (n ≤ length heads.now) }
    requires clean { Clean n marks.old }
    ensures marks { marks.new ≡ marks.old }
    ensures answer { MatchResult result (λ _. Admitted n (row_links rows.now) u.0 v.0 rank_of.old rank_of.new place_at.old place_at.new) (λ e. (e ≡ Circle) × Circular (row_links rows.now) u.0 v.0 rank_of.old rank_of.new place_at.old place_at.new) }
{
    if rank_at(rank_of, u) < rank_at(rank_of, v) {
        return Ok(());
    }
    let mut marked = Marked { bytes: marks, n };
    reorder(rank_of, place_at, rows, heads, tally, &mut marked, u, v)
}
