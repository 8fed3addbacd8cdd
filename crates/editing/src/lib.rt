// The three edits of a store's columns: each changes an own label or a link, and recomputes.
#![tactic(auto)]

ghost use Rattle.std.specs.Prelude.{◌≡◌, ◌<◌, ◌≤◌, length, drop, vec_len, vec_items, MatchResult};
ghost use Rattle.links.specs.Table.{Leads, link as link_of};
ghost use Rattle.common.specs.declared.refusal.Refusal.TheVariants.{Circle};
ghost use Rattle.tables.specs.Graph.{size, linked, ranks_of, link_room, SameGraph, SameLoan};
ghost use Rattle.recompute.specs.Tables.{Recomputes};
ghost use Rattle.editing.specs.Edited.{Owned, Unlinked, Linked, Circles, Steady};

use common::{PlaceNumber, Refusal};
use kinds::LabelKind;
use recompute::recompute_lent;
use tables::{Columns, write};

// Recomputes the labels after an edit at e.
fn recompute_from<K: LabelKind>(
    t: &mut Columns<'_, K::Row, K::PassageRow>,
    e: PlaceNumber,
    list: &mut [PlaceNumber],
) -> (usize, usize)
    requires place { e.0 < size t.old }
    requires list { size t.old ≤ length list.old }
    ensures loan { SameLoan t.old t.new }
    ensures recomputes { Recomputes K.means (size t.old) t.old.tables.now.own.items (linked t.old) (ranks_of t.old) e.0 t.old.tables.now.labels.items t.new.tables.now.labels.items list.new result }
    ensures same { (t.new.tables.now.present ≡ t.old.tables.now.present) × (t.new.tables.now.own ≡ t.old.tables.now.own) × SameGraph t.old t.new }
    ensures long { vec_len t.new.tables.now.labels ≡ vec_len t.old.tables.now.labels }
    ensures marks { vec_items t.new.tables.now.marks ≡ vec_items t.old.tables.now.marks }
    ensures rest { drop result.0 list.new ≡ drop result.0 list.old }
{
    let tables = &mut *t.tables;
    recompute_lent::<K>(
        tables.own.as_slice(),
        tables.labels.as_mut_slice(),
        tables.ranks.as_slice(),
        tables.order.as_slice(),
        tables.links.as_slice(),
        tables.heads.as_slice(),
        t.tally,
        tables.marks.as_mut_slice(),
        t.places,
        e,
        list,
    )
}

// Replaces the own label of p.
pub fn own_in<K: LabelKind>(
    t: &mut Columns<'_, K::Row, K::PassageRow>,
    p: PlaceNumber,
    label: K,
    list: &mut [PlaceNumber],
) -> (usize, usize)
    requires place { p.0 < size t.old }
    requires list { size t.old ≤ length list.old }
    ensures loan { SameLoan t.old t.new }
    ensures owned { Owned K.means p.0 (K.means.value label) t.old t.new list.new result }
    ensures rest { drop result.0 list.new ≡ drop result.0 list.old }
{
    write(&mut t.tables.own, p, label.to_row());
    recompute_from::<K>(t, p, list)
}

// Takes the link from u to v out, if there is one.
pub fn unlink_in<K: LabelKind>(
    t: &mut Columns<'_, K::Row, K::PassageRow>,
    u: PlaceNumber,
    v: PlaceNumber,
    list: &mut [PlaceNumber],
) -> (usize, usize)
    requires places { (u.0 < size t.old) × (v.0 < size t.old) }
    requires list { size t.old ≤ length list.old }
    ensures loan { SameLoan t.old t.new }
    ensures unlinked { Unlinked K.means u.0 v.0 t.old t.new list.new result }
    ensures rest { drop result.0 list.new ≡ drop result.0 list.old }
{
    t.unlink(u, v);
    recompute_from::<K>(t, v, list)
}

// Puts a link from u to v in, unless it closes a circle.
pub fn link_in<K: LabelKind>(
    t: &mut Columns<'_, K::Row, K::PassageRow>,
    u: PlaceNumber,
    v: PlaceNumber,
    row: K::PassageRow,
    list: &mut [PlaceNumber],
) -> Result<(usize, usize), Refusal>
    requires places { (u.0 < size t.old) × (v.0 < size t.old) }
    requires list { size t.old ≤ length list.old }
    requires room { length (linked t.old) < link_room t.old }
    requires fresh { Leads (linked t.old) u.0 v.0 → ⊥ }
    ensures loan { SameLoan t.old t.new }
    ensures steady { Steady t.old t.new }
    ensures told { MatchResult result (λ c. Linked K.means (link_of u v row) t.old t.new list.new c) (λ e. (e ≡ Circle) × Circles u.0 v.0 t.old t.new) }
    ensures rest { MatchResult result (λ c. drop c.0 list.new ≡ drop c.0 list.old) (λ _. list.new ≡ list.old) }
{
    t.link(u, v, row)?;
    Ok(recompute_from::<K>(t, v, list))
}
