// The three edits of the tables: each changes an own label or a link, and recomputes.
#![tactic(auto)]

ghost use Rattle.std.specs.Prelude.{◌≡◌, ℕ, ◌+◌, ◌<◌, ◌≤◌, length, drop, MatchResult};
ghost use Rattle.common.specs.declared.refusal.Refusal.TheVariants.{Circle};
ghost use Rattle.paths.specs.Walk.{Put};
ghost use Rattle.links.specs.Table.{Kept, Leads, links as row_links, link as link_of};
ghost use Rattle.links.specs.Links.{Gained, Lost};
ghost use Rattle.order.specs.Admit.{Admitted, Circular};
ghost use Rattle.order.specs.Marks.{Clean};
ghost use Rattle.order.specs.Tables.{Ordered};
ghost use Rattle.recompute.specs.Tables.{value_in, Recomputes};

use common::{PlaceNumber, Rank, Refusal};
use kinds::LabelKind;
use links::{Heads, LinkRow, Tally};
use recompute::recompute_lent;

// Replaces the own label of p.
pub fn replace_own<K: LabelKind>(
    own: &mut [K::Row],
    labels: &mut [K::Row],
    rank_of: &[Rank],
    place_at: &[PlaceNumber],
    rows: &[LinkRow<K::PassageRow>],
    heads: &[Heads],
    tally: Tally,
    marks: &mut [u8],
    n: usize,
    p: PlaceNumber,
    label: K,
    list: &mut [PlaceNumber],
) -> (usize, usize)
    requires kept { Kept rows.now heads.now tally }
    requires ordered { Ordered n rank_of.now place_at.now (row_links rows.now) }
    requires sizes { (n ≤ length own.old) × ((n ≤ length labels.old) × ((n ≤ length heads.now) × ((n ≤ length marks.old) × (n ≤ length list.old)))) }
    requires place { p.0 < n }
    requires clean { Clean n marks.old }
    ensures put { Put (value_in K.LabelKind.means n own.old) (value_in K.LabelKind.means n own.new) p.0 (K.LabelKind.means.value label) }
    ensures recomputes { Recomputes K.LabelKind.means n own.new (row_links rows.now) rank_of.now p.0 labels.old labels.new list.new result }
    ensures marks { marks.new ≡ marks.old }
    ensures rest { drop result.0 list.new ≡ drop result.0 list.old }
{
    own[p.index()] = label.to_row();
    recompute_lent::<K>(
        own, labels, rank_of, place_at, rows, heads, tally, marks, n, p, list,
    )
}

// Takes the link from u to v out, if there is one.
pub fn remove_link<K: LabelKind>(
    own: &[K::Row],
    labels: &mut [K::Row],
    rank_of: &[Rank],
    place_at: &[PlaceNumber],
    rows: &mut [LinkRow<K::PassageRow>],
    heads: &mut [Heads],
    tally: &mut Tally,
    marks: &mut [u8],
    n: usize,
    u: PlaceNumber,
    v: PlaceNumber,
    list: &mut [PlaceNumber],
) -> (usize, usize)
    requires kept { Kept rows.old heads.old tally.old }
    requires ordered { Ordered n rank_of.now place_at.now (row_links rows.old) }
    requires sizes { (n ≤ length own.now) × ((n ≤ length labels.old) × ((n ≤ length heads.old) × ((n ≤ length marks.old) × (n ≤ length list.old)))) }
    requires places { (u.0 < n) × (v.0 < n) }
    requires clean { Clean n marks.old }
    ensures kept { Kept rows.new heads.new tally.new }
    ensures ordered { Ordered n rank_of.now place_at.now (row_links rows.new) }
    ensures lost { Lost (row_links rows.old) (row_links rows.new) u.0 v.0 }
    ensures recomputes { Recomputes K.LabelKind.means n own.now (row_links rows.new) rank_of.now v.0 labels.old labels.new list.new result }
    ensures marks { marks.new ≡ marks.old }
    ensures rest { drop result.0 list.new ≡ drop result.0 list.old }
{
    links::remove(rows, heads, tally, u, v);
    recompute_lent::<K>(
        own, labels, rank_of, place_at, rows, heads, *tally, marks, n, v, list,
    )
}

// Puts a link from u to v in, unless it closes a circle, and moves the ranks by the rule.
pub fn add_link<K: LabelKind>(
    own: &[K::Row],
    labels: &mut [K::Row],
    rank_of: &mut [Rank],
    place_at: &mut [PlaceNumber],
    rows: &mut [LinkRow<K::PassageRow>],
    heads: &mut [Heads],
    tally: &mut Tally,
    marks: &mut [u8],
    n: usize,
    u: PlaceNumber,
    v: PlaceNumber,
    row: K::PassageRow,
    list: &mut [PlaceNumber],
) -> Result<(usize, usize), Refusal>
    requires kept { Kept rows.old heads.old tally.old }
    requires ordered { Ordered n rank_of.old place_at.old (row_links rows.old) }
    requires sizes { (n ≤ length own.now) × ((n ≤ length labels.old) × ((n ≤ length heads.old) × ((n ≤ length marks.old) × (n ≤ length list.old)))) }
    requires places { (u.0 < n) × (v.0 < n) }
    requires clean { Clean n marks.old }
    requires room { length (row_links rows.old) < length rows.old }
    requires fresh { Leads (row_links rows.old) u.0 v.0 → ⊥ }
    ensures kept { Kept rows.new heads.new tally.new }
    ensures ordered { Ordered n rank_of.new place_at.new (row_links rows.new) }
    ensures marks { marks.new ≡ marks.old }
    ensures ranks { MatchResult result (λ _. Admitted n (row_links rows.old) u.0 v.0 rank_of.old rank_of.new place_at.old place_at.new) (λ e. (e ≡ Circle) × Circular (row_links rows.old) u.0 v.0 rank_of.old rank_of.new place_at.old place_at.new) }
    ensures links { MatchResult result (λ _. Gained (row_links rows.old) (row_links rows.new) (link_of u v row)) (λ _. (rows.new ≡ rows.old) × (heads.new ≡ heads.old) × (tally.new ≡ tally.old)) }
    ensures counted { MatchResult result (λ _. length (row_links rows.new) ≡ length (row_links rows.old) + 1) (λ _. length (row_links rows.new) ≡ length (row_links rows.old)) }
    ensures labels { MatchResult result (λ c. Recomputes K.LabelKind.means n own.now (row_links rows.new) rank_of.new v.0 labels.old labels.new list.new c) (λ _. labels.new ≡ labels.old) }
    ensures list { MatchResult result (λ c. drop c.0 list.new ≡ drop c.0 list.old) (λ _. list.new ≡ list.old) }
{
    order::admit(rank_of, place_at, &*rows, &*heads, *tally, marks, n, u, v)?;
    links::insert(rows, heads, tally, u, v, row);
    Ok(recompute_lent::<K>(
        own, labels, rank_of, place_at, rows, heads, *tally, marks, n, v, list,
    ))
}
