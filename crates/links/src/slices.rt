// The calls over rows and heads that the caller lends.
ghost use Rattle.std.specs.Prelude.{◌≡◌, ℕ, ◌+◌, ◌-◌, ◌<◌, true, false, ◌↔◌, [], length, filter};
ghost use Rattle.links.specs.Table.{Kept, Leads, Occupied, Taken, Lowest, Next, Told, Found, link, links, Stacked, Headless};
ghost use Rattle.links.specs.Links.{Gained, Lost, Shut, enters};
ghost use Rattle.links.specs.LinksAt.{LinksOf, rest};

use crate::row::{Heads, Link, LinkRow, Side, Slot, Tally};
use crate::table::LinksAt;
use crate::threads::{behead, below, head, link_in, seek, splice, stack};
use common::PlaceNumber;

// Makes an empty table.
pub fn reset<R: Copy>(rows: &mut [LinkRow<R>], heads: &mut [Heads]) -> Tally
    ensures sound { Kept rows.new heads.new result }
    ensures empty { links rows.new ≡ [] }
    ensures stacked { Stacked rows.new (length rows.new) }
    ensures top { result.free.0 ≡ length rows.new - 1 }
    ensures headless { Headless heads.new (length rows.new) (length heads.new) }
{
    let free = stack(rows);
    behead(heads, Slot(rows.len()));
    Tally { count: 0, free }
}

// How many links there are.
pub fn count<R: Copy>(rows: &[LinkRow<R>], heads: &[Heads], tally: Tally) -> usize
    requires { Kept rows.now heads.now tally }
    ensures { result ≡ length (links rows.now) }
{
    tally.count
}

// The links that leave or enter p, by rising number of the other end.
pub fn links_at<'a, R: Copy>(
    side: Side,
    rows: &'a [LinkRow<R>],
    heads: &[Heads],
    tally: Tally,
    p: PlaceNumber,
) -> LinksAt<'a, R>
    requires sound { Kept rows.now heads.now tally }
    requires inside { p.0 < length heads.now }
    ensures { LinksOf side (links rows.now) (length heads.now) p.0 (rest result) }
{
    let at = head(side, heads, p);
    LinksAt { rows, side, at }
}

// The first of the links that leave or enter p.
pub fn first<R: Copy>(
    side: Side,
    rows: &[LinkRow<R>],
    heads: &[Heads],
    tally: Tally,
    p: PlaceNumber,
) -> Option<Slot>
    requires sound { Kept rows.now heads.now tally }
    requires inside { p.0 < length heads.now }
    ensures { Lowest side rows.now p.0 0 result }
{
    head(side, heads, p).within(rows.len())
}

// The one after the link in the slot s.
pub fn next<R: Copy>(
    side: Side,
    rows: &[LinkRow<R>],
    heads: &[Heads],
    tally: Tally,
    s: Slot,
) -> Option<Slot>
    requires { Kept rows.now heads.now tally }
    ensures { Next side rows.now s.0 result }
{
    let (_, rest) = link_in(rows, s)?;
    rest.on(side).within(rows.len())
}

// The link in the slot s, where there is one.
pub fn link_at<R: Copy>(
    rows: &[LinkRow<R>],
    heads: &[Heads],
    tally: Tally,
    s: Slot,
) -> Option<Link<R>>
    requires { Kept rows.now heads.now tally }
    ensures { Told rows.now (length heads.now) s.0 result }
{
    let (link, _) = link_in(rows, s)?;
    Some(link)
}

// Whether a link leaves p.
pub fn leaves<R: Copy>(rows: &[LinkRow<R>], heads: &[Heads], tally: Tally, p: PlaceNumber) -> bool
    requires sound { Kept rows.now heads.now tally }
    requires inside { p.0 < length heads.now }
    ensures { (result ≡ true) ↔ ((v : ℕ) × Leads (links rows.now) p.0 v) }
{
    first(Side::Leaving, rows, heads, tally, p).is_some()
}

// The slot of the link from source to target, if there is one.
pub fn find<R: Copy>(
    rows: &[LinkRow<R>],
    heads: &[Heads],
    tally: Tally,
    source: PlaceNumber,
    target: PlaceNumber,
) -> Option<Slot>
    requires sound { Kept rows.now heads.now tally }
    requires inside { source.0 < length heads.now }
    ensures { Found rows.now source.0 target.0 result }
{
    let spot = seek(Side::Leaving, rows, heads, source, target);
    let (link, _) = link_in(rows, spot.at)?;
    (link.target == target).then_some(spot.at)
}

// Puts a link from source to target in.
pub fn insert<R: Copy>(
    rows: &mut [LinkRow<R>],
    heads: &mut [Heads],
    tally: &mut Tally,
    source: PlaceNumber,
    target: PlaceNumber,
    passage: R,
)
    requires sound { Kept rows.old heads.old tally.old }
    requires from { source.0 < length heads.old }
    requires to { target.0 < length heads.old }
    requires room { length (links rows.old) < length rows.old }
    requires fresh { Leads (links rows.old) source.0 target.0 → ⊥ }
    ensures sound { Kept rows.new heads.new tally.new }
    ensures gained { Gained (links rows.old) (links rows.new) (link source target passage) }
    ensures counted { length (links rows.new) ≡ length (links rows.old) + 1 }
{
    let a = seek(Side::Leaving, rows, heads, source, target);
    let b = seek(Side::Entering, rows, heads, target, source);
    let s = tally.free;
    let free = below(rows, s);
    let link = Link {
        source,
        target,
        passage,
    };
    let rest = Heads {
        leaving: a.at,
        entering: b.at,
    };
    rows[s.0] = LinkRow::Used(link, rest);
    splice(Side::Leaving, rows, heads, a.prev, source, s);
    splice(Side::Entering, rows, heads, b.prev, target, s);
    tally.free = free;
    tally.count += 1;
}

// Takes the link in the slot s out. What it shares with `insert` is `seek` and `splice`: one puts s in front of what it found, the other takes s away.
fn remove_slot<R: Copy>(rows: &mut [LinkRow<R>], heads: &mut [Heads], tally: &mut Tally, s: Slot)
    requires sound { Kept rows.old heads.old tally.old }
    requires held { Occupied rows.old s.0 }
    ensures sound { Kept rows.new heads.new tally.new }
    ensures taken { Taken rows.old rows.new s.0 }
    ensures counted { tally.new.count + 1 ≡ tally.old.count }
{
    let Some((link, rest)) = link_in(rows, s) else {
        unreachable!()
    };
    let Link { source, target, .. } = link;
    let under = rows.len() - tally.count;
    let a = seek(Side::Leaving, rows, heads, source, target);
    let b = seek(Side::Entering, rows, heads, target, source);
    splice(Side::Leaving, rows, heads, a.prev, source, rest.leaving);
    splice(Side::Entering, rows, heads, b.prev, target, rest.entering);
    rows[s.0] = LinkRow::Unused {
        under,
        below: tally.free,
    };
    tally.free = s;
    tally.count -= 1;
}

// Takes the link from source to target out, and says whether there was one.
pub fn remove<R: Copy>(
    rows: &mut [LinkRow<R>],
    heads: &mut [Heads],
    tally: &mut Tally,
    source: PlaceNumber,
    target: PlaceNumber,
) -> bool
    requires sound { Kept rows.old heads.old tally.old }
    requires inside { source.0 < length heads.old }
    ensures sound { Kept rows.new heads.new tally.new }
    ensures lost { Lost (links rows.old) (links rows.new) source.0 target.0 }
    ensures told { (result ≡ true) ↔ Leads (links rows.old) source.0 target.0 }
    ensures counted { result ≡ true → length (links rows.new) + 1 ≡ length (links rows.old) }
    ensures still { result ≡ false → (rows.new ≡ rows.old) × (heads.new ≡ heads.old) × (tally.new ≡ tally.old) }
{
    // A match: where there is a slot it is emptied too.
    match find(rows, heads, *tally, source, target) {
        Some(s) => {
            remove_slot(rows, heads, tally, s);
            true
        }
        None => false,
    }
}

// Takes every link that enters p out.
pub fn remove_entering<R: Copy>(
    rows: &mut [LinkRow<R>],
    heads: &mut [Heads],
    tally: &mut Tally,
    p: PlaceNumber,
)
    requires sound { Kept rows.old heads.old tally.old }
    requires inside { p.0 < length heads.old }
    ensures sound { Kept rows.new heads.new tally.new }
    ensures shut { Shut (links rows.old) (links rows.new) p.0 }
    ensures counted { length (links rows.new) + length (filter (enters p.0) (links rows.old)) ≡ length (links rows.old) }
{
    while let Some(s) = first(Side::Entering, rows, heads, *tally, p) {
        remove_slot(rows, heads, tally, s);
    }
}
