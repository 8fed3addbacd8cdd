// What the columns are asked of their links, and how these change.
ghost use Rattle.std.specs.Prelude.{◌≡◌, ℕ, ◌+◌, ◌<◌, ◌≤◌, true, ◌↔◌, length, MatchResult, vec_items};
ghost use Rattle.common.specs.declared.refusal.Refusal.TheVariants.{Circle};
ghost use Rattle.links.specs.Table.{Leads, link as link_of};
ghost use Rattle.links.specs.Links.{Gained, Lost, Shut};
ghost use Rattle.order.specs.Admit.{Admitted, Circular};
ghost use Rattle.tables.specs.Graph.{size, linked, ranks_of, order_of, link_room, SameGraph, SameLinks, SameLoan, SamePlaces, SameRanks, SameSpace};

use super::columns::Columns;
use common::{PlaceNumber, Refusal};
use links::{count, find, insert, leaves, remove, remove_entering};
use order::admit;

impl<R: Copy, S: Copy> Columns<'_, R, S> {
    // How many links there are.
    pub fn count(&self) -> usize
        requires { 0 < size self.now }
        ensures { result ≡ length (linked self.now) }
    {
        let tables = &*self.tables;
        count(tables.links.as_slice(), tables.heads.as_slice(), self.tally)
    }

    // Whether a link leads from u to v.
    pub fn is_linked(&self, u: PlaceNumber, v: PlaceNumber) -> bool
        requires { u.0 < size self.now }
        ensures { (result ≡ true) ↔ Leads (linked self.now) u.0 v.0 }
    {
        let tables = &*self.tables;
        let heads = tables.heads.as_slice();
        find(tables.links.as_slice(), heads, self.tally, u, v).is_some()
    }

    // Whether a link leaves p.
    pub fn has_leaving(&self, p: PlaceNumber) -> bool
        requires { p.0 < size self.now }
        ensures { (result ≡ true) ↔ ((v : ℕ) × Leads (linked self.now) p.0 v) }
    {
        let tables = &*self.tables;
        let heads = tables.heads.as_slice();
        leaves(tables.links.as_slice(), heads, self.tally, p)
    }

    // Makes room for a new link from u to v, as `order::admit` does.
    fn admit(&mut self, u: PlaceNumber, v: PlaceNumber) -> Result<(), Refusal>
        requires ends { (u.0 < size self.old) × (v.0 < size self.old) }
        ensures loan { SameLoan self.old self.new }
        ensures space { SameSpace self.old self.new }
        ensures places { SamePlaces self.old self.new }
        ensures links { SameLinks self.old self.new }
        ensures marks { vec_items self.new.tables.now.marks ≡ vec_items self.old.tables.now.marks }
        ensures still { MatchResult result (λ _. Unit {0}) (λ _. SameRanks self.old self.new) }
        ensures answer { MatchResult result (λ _. Admitted (size self.old) (linked self.old) u.0 v.0 (ranks_of self.old) (ranks_of self.new) (order_of self.old) (order_of self.new)) (λ e. (e ≡ Circle) × Circular (linked self.old) u.0 v.0 (ranks_of self.old) (ranks_of self.new) (order_of self.old) (order_of self.new)) }
    {
        let n = self.places;
        let tables = &mut *self.tables;
        let ranks = tables.ranks.as_mut_slice();
        let order = tables.order.as_mut_slice();
        let rows = tables.links.as_slice();
        let heads = tables.heads.as_slice();
        let marks = tables.marks.as_mut_slice();
        admit(ranks, order, rows, heads, self.tally, marks, n, u, v)
    }

    // Puts a link from u to v in, unless it closes a circle.
    pub fn link(&mut self, u: PlaceNumber, v: PlaceNumber, passage: S) -> Result<(), Refusal>
        requires ends { (u.0 < size self.old) × (v.0 < size self.old) }
        requires room { length (linked self.old) < link_room self.old }
        requires fresh { Leads (linked self.old) u.0 v.0 → ⊥ }
        ensures loan { SameLoan self.old self.new }
        ensures space { SameSpace self.old self.new }
        ensures places { SamePlaces self.old self.new }
        ensures marks { vec_items self.new.tables.now.marks ≡ vec_items self.old.tables.now.marks }
        ensures ranks { MatchResult result (λ _. Admitted (size self.old) (linked self.old) u.0 v.0 (ranks_of self.old) (ranks_of self.new) (order_of self.old) (order_of self.new)) (λ e. (e ≡ Circle) × Circular (linked self.old) u.0 v.0 (ranks_of self.old) (ranks_of self.new) (order_of self.old) (order_of self.new)) }
        ensures still { MatchResult result (λ _. Unit {0}) (λ _. SameGraph self.old self.new) }
        ensures links { MatchResult result (λ _. Gained (linked self.old) (linked self.new) (link_of u v passage)) (λ _. linked self.new ≡ linked self.old) }
        ensures counted { MatchResult result (λ _. length (linked self.new) ≡ length (linked self.old) + 1) (λ _. length (linked self.new) ≡ length (linked self.old)) }
    {
        self.admit(u, v)?;
        let tables = &mut *self.tables;
        let rows = tables.links.as_mut_slice();
        let heads = tables.heads.as_mut_slice();
        insert(rows, heads, &mut self.tally, u, v, passage);
        Ok(())
    }

    // Takes the link from u to v out, if there is one.
    pub fn unlink(&mut self, u: PlaceNumber, v: PlaceNumber)
        requires { u.0 < size self.old }
        ensures loan { SameLoan self.old self.new }
        ensures space { SameSpace self.old self.new }
        ensures places { SamePlaces self.old self.new }
        ensures marks { self.new.tables.now.marks ≡ self.old.tables.now.marks }
        ensures ranked { SameRanks self.old self.new }
        ensures lost { Lost (linked self.old) (linked self.new) u.0 v.0 }
        ensures fewer { length (linked self.new) ≤ length (linked self.old) }
    {
        let tables = &mut *self.tables;
        let rows = tables.links.as_mut_slice();
        let heads = tables.heads.as_mut_slice();
        remove(rows, heads, &mut self.tally, u, v);
    }

    // Takes every link into p out.
    pub fn unlink_entering(&mut self, p: PlaceNumber)
        requires { p.0 < size self.old }
        ensures loan { SameLoan self.old self.new }
        ensures space { SameSpace self.old self.new }
        ensures places { SamePlaces self.old self.new }
        ensures marks { self.new.tables.now.marks ≡ self.old.tables.now.marks }
        ensures ranked { SameRanks self.old self.new }
        ensures shut { Shut (linked self.old) (linked self.new) p.0 }
        ensures fewer { length (linked self.new) ≤ length (linked self.old) }
    {
        let tables = &mut *self.tables;
        let rows = tables.links.as_mut_slice();
        let heads = tables.heads.as_mut_slice();
        remove_entering(rows, heads, &mut self.tally, p);
    }
}
