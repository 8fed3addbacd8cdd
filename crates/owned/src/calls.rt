// The tables cleared, a place brought, the three edits, and a place taken out.
ghost use Rattle.std.specs.Prelude.{◌≡◌, ◌<◌, ◌≤◌, true, length, drop, vec_len, slice_set, MatchResult};
ghost use Rattle.common.specs.declared.refusal.Refusal.TheVariants.{Circle};
ghost use Rattle.links.specs.Table.{Leads, link as link_of};
ghost use Rattle.tables.specs.Graph.{linked, link_room, SameGraph};
ghost use Rattle.tables.specs.Room.{Limits, Room};
ghost use Rattle.tables.specs.Making.{Cleared};
ghost use Rattle.editing.specs.Edited.{Owned, Unlinked, Linked, Circles, Steady};
ghost use Rattle.discarding.specs.Discarded.{Discarded};
ghost use Rattle.owned.specs.Lent.{columns};

use crate::making::over;
use crate::owner::OwnedTables;
use common::{PlaceNumber, Refusal};
use kinds::LabelKind;

// Clears the tables for a new store of n places.
pub fn clear<K: LabelKind>(t: &mut OwnedTables<K::Row, K::PassageRow>, n: usize, m: usize)
    requires limits { Limits n m }
    requires room { Room t.old.tables n m }
    ensures { Cleared K.means n m (columns t.old) (columns t.new) }
{
    let mut columns = over(&mut t.tables, t.tally, t.places);
    tables::clear::<K>(&mut columns, n, m);
    t.tally = columns.tally;
    t.places = n;
}

impl<R: Copy, S: Copy> OwnedTables<R, S> {
    // Makes p present.
    pub fn bring(&mut self, p: PlaceNumber)
        requires { p.0 < self.old.places }
        ensures entry { self.new.tables.present.items ≡ slice_set self.old.tables.present.items p.0 true }
        ensures long { vec_len self.new.tables.present ≡ vec_len self.old.tables.present }
        ensures rest { (self.new.tables.own ≡ self.old.tables.own) × (self.new.tables.labels ≡ self.old.tables.labels) × (self.new.tables.marks ≡ self.old.tables.marks) }
        ensures graph { SameGraph (columns self.old) (columns self.new) }
    {
        let mut columns = over(&mut self.tables, self.tally, self.places);
        columns.bring(p);
    }
}

// Replaces the own label of p.
pub fn own_in<K: LabelKind>(
    t: &mut OwnedTables<K::Row, K::PassageRow>,
    p: PlaceNumber,
    label: K,
    list: &mut [PlaceNumber],
) -> (usize, usize)
    requires place { p.0 < t.old.places }
    requires list { t.old.places ≤ length list.old }
    ensures owned { Owned K.means p.0 (K.means.value label) (columns t.old) (columns t.new) list.new result }
    ensures rest { drop result.0 list.new ≡ drop result.0 list.old }
{
    let mut columns = over(&mut t.tables, t.tally, t.places);
    editing::own_in::<K>(&mut columns, p, label, list)
}

// Takes the link from u to v out, if there is one.
pub fn unlink_in<K: LabelKind>(
    t: &mut OwnedTables<K::Row, K::PassageRow>,
    u: PlaceNumber,
    v: PlaceNumber,
    list: &mut [PlaceNumber],
) -> (usize, usize)
    requires places { (u.0 < t.old.places) × (v.0 < t.old.places) }
    requires list { t.old.places ≤ length list.old }
    ensures unlinked { Unlinked K.means u.0 v.0 (columns t.old) (columns t.new) list.new result }
    ensures rest { drop result.0 list.new ≡ drop result.0 list.old }
{
    let mut columns = over(&mut t.tables, t.tally, t.places);
    let told = editing::unlink_in::<K>(&mut columns, u, v, list);
    t.tally = columns.tally;
    told
}

// Puts a link from u to v in, unless it closes a circle.
pub fn link_in<K: LabelKind>(
    t: &mut OwnedTables<K::Row, K::PassageRow>,
    u: PlaceNumber,
    v: PlaceNumber,
    row: K::PassageRow,
    list: &mut [PlaceNumber],
) -> Result<(usize, usize), Refusal>
    requires places { (u.0 < t.old.places) × (v.0 < t.old.places) }
    requires list { t.old.places ≤ length list.old }
    requires room { length (linked (columns t.old)) < link_room (columns t.old) }
    requires fresh { Leads (linked (columns t.old)) u.0 v.0 → ⊥ }
    ensures steady { Steady (columns t.old) (columns t.new) }
    ensures told { MatchResult result (λ c. Linked K.means (link_of u v row) (columns t.old) (columns t.new) list.new c) (λ e. (e ≡ Circle) × Circles u.0 v.0 (columns t.old) (columns t.new)) }
    ensures rest { MatchResult result (λ c. drop c.0 list.new ≡ drop c.0 list.old) (λ _. list.new ≡ list.old) }
{
    let mut columns = over(&mut t.tables, t.tally, t.places);
    let told = editing::link_in::<K>(&mut columns, u, v, row, list);
    t.tally = columns.tally;
    told
}

// Takes every link into p away, empties its own label and its label, and makes it absent.
pub fn discard_in<K: LabelKind>(t: &mut OwnedTables<K::Row, K::PassageRow>, p: PlaceNumber)
    requires { p.0 < t.old.places }
    ensures { Discarded K.means p.0 (columns t.old) (columns t.new) }
{
    let mut columns = over(&mut t.tables, t.tally, t.places);
    discarding::discard_in::<K>(&mut columns, p);
    t.tally = columns.tally;
}
