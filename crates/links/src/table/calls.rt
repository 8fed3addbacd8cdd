// What a link table does.
ghost use Rattle.std.specs.Prelude.{◌≡◌, ℕ, ◌+◌, ◌<◌, true, false, ◌↔◌, [], length, filter, vec_len, vec_items};
ghost use Rattle.links.specs.declared.row.Side.TheVariants.{Leaving, Entering};
ghost use Rattle.links.specs.Table.{Leads, LinkFrom, link, links};
ghost use Rattle.links.specs.Links.{Gained, Lost, Shut, enters};
ghost use Rattle.links.specs.LinkTable.{held, places, capacity, SameSizes};
ghost use Rattle.links.specs.LinksAt.{LinksOf, rest};

use crate::row::{Heads, Link, LinkRow, Side, Tally};
use crate::slices;
use crate::table::LinkTable;
use crate::table::links_at::LinksAt;
use common::PlaceNumber;

impl<R: Copy> LinkTable<R> {
    // Makes an empty table in the memory of these rows and heads, whatever they hold.
    pub fn new(rows: Vec<LinkRow<R>>, heads: Vec<Heads>) -> LinkTable<R>
        ensures empty { held result ≡ [] }
        ensures rows { capacity result ≡ vec_len rows }
        ensures heads { places result ≡ vec_len heads }
    {
        let mut rows = rows;
        let mut heads = heads;
        let tally = slices::reset(rows.as_mut_slice(), heads.as_mut_slice());
        LinkTable { rows, heads, tally }
    }

    // Gives the memory back, with the links in it.
    pub fn into_parts(self) -> (Vec<LinkRow<R>>, Vec<Heads>)
        ensures rows { vec_len result.0 ≡ capacity self }
        ensures heads { vec_len result.1 ≡ places self }
        ensures links { links (vec_items result.0) ≡ held self }
    {
        let LinkTable { rows, heads, .. } = self;
        (rows, heads)
    }

    // The rows, as the calls over lent slices read them.
    pub fn rows(&self) -> &[LinkRow<R>]
        ensures { result.now ≡ self.now.rows.items }
    {
        self.rows.as_slice()
    }

    // The heads of the threads.
    pub fn heads(&self) -> &[Heads]
        ensures { result.now ≡ self.now.heads.items }
    {
        self.heads.as_slice()
    }

    // How many rows are links, and the unused row on top.
    pub fn tally(&self) -> Tally
        ensures { result ≡ self.now.tally }
    {
        let LinkTable { tally, .. } = self;
        *tally
    }

    // Takes every link out.
    pub fn clear(&mut self)
        ensures empty { held self.new ≡ [] }
        ensures sizes { SameSizes self.old self.new }
    {
        self.tally = slices::reset(self.rows.as_mut_slice(), self.heads.as_mut_slice());
    }

    // How many places the links may lead between.
    pub fn places(&self) -> usize
        ensures { result ≡ places self.now }
    {
        self.heads.len()
    }

    // How many links there is room for.
    pub fn capacity(&self) -> usize
        ensures { result ≡ capacity self.now }
    {
        self.rows.len()
    }

    // How many links there are.
    pub fn len(&self) -> usize
        ensures { result ≡ length (held self.now) }
    {
        slices::count(&self.rows, &self.heads, self.tally)
    }

    // The links that leave p, by rising number of their targets.
    pub fn leaving(&self, p: PlaceNumber) -> LinksAt<'_, R>
        requires { p.0 < places self.now }
        ensures { LinksOf Leaving (held self.now) (places self.now) p.0 (rest result) }
    {
        self.links_at(Side::Leaving, p)
    }

    // The links that enter p, by rising number of their sources.
    pub fn entering(&self, p: PlaceNumber) -> LinksAt<'_, R>
        requires { p.0 < places self.now }
        ensures { LinksOf Entering (held self.now) (places self.now) p.0 (rest result) }
    {
        self.links_at(Side::Entering, p)
    }

    fn links_at(&self, side: Side, p: PlaceNumber) -> LinksAt<'_, R>
        requires { p.0 < places self.now }
        ensures { LinksOf side (held self.now) (places self.now) p.0 (rest result) }
    {
        slices::links_at(side, &self.rows, &self.heads, self.tally, p)
    }

    // Whether a link leaves p.
    pub fn has_leaving(&self, p: PlaceNumber) -> bool
        requires { p.0 < places self.now }
        ensures { (result ≡ true) ↔ ((v : ℕ) × Leads (held self.now) p.0 v) }
    {
        slices::leaves(&self.rows, &self.heads, self.tally, p)
    }

    // The link from source to target.
    pub fn get(&self, source: PlaceNumber, target: PlaceNumber) -> Option<Link<R>>
        requires { source.0 < places self.now }
        ensures { LinkFrom (held self.now) source.0 target.0 result }
    {
        let s = slices::find(&self.rows, &self.heads, self.tally, source, target)?;
        slices::link_at(&self.rows, &self.heads, self.tally, s)
    }

    // Whether a link leads from source to target.
    pub fn is_linked(&self, source: PlaceNumber, target: PlaceNumber) -> bool
        requires { source.0 < places self.now }
        ensures { (result ≡ true) ↔ Leads (held self.now) source.0 target.0 }
    {
        self.get(source, target).is_some()
    }

    // Puts a link from source to target in.
    pub fn insert(&mut self, source: PlaceNumber, target: PlaceNumber, passage: R)
        requires from { source.0 < places self.old }
        requires to { target.0 < places self.old }
        requires room { length (held self.old) < capacity self.old }
        requires fresh { Leads (held self.old) source.0 target.0 → ⊥ }
        ensures gained { Gained (held self.old) (held self.new) (link source target passage) }
        ensures counted { length (held self.new) ≡ length (held self.old) + 1 }
        ensures sizes { SameSizes self.old self.new }
    {
        let rows = self.rows.as_mut_slice();
        let heads = self.heads.as_mut_slice();
        slices::insert(rows, heads, &mut self.tally, source, target, passage);
    }

    // Takes the link from source to target out, and says whether there was one.
    pub fn remove(&mut self, source: PlaceNumber, target: PlaceNumber) -> bool
        requires { source.0 < places self.old }
        ensures lost { Lost (held self.old) (held self.new) source.0 target.0 }
        ensures told { (result ≡ true) ↔ Leads (held self.old) source.0 target.0 }
        ensures counted { result ≡ true → length (held self.new) + 1 ≡ length (held self.old) }
        ensures still { result ≡ false → self.new ≡ self.old }
        ensures sizes { SameSizes self.old self.new }
    {
        let rows = self.rows.as_mut_slice();
        let heads = self.heads.as_mut_slice();
        slices::remove(rows, heads, &mut self.tally, source, target)
    }

    // Takes every link that enters p out.
    pub fn remove_entering(&mut self, p: PlaceNumber)
        requires { p.0 < places self.old }
        ensures shut { Shut (held self.old) (held self.new) p.0 }
        ensures counted { length (held self.new) + length (filter (enters p.0) (held self.old)) ≡ length (held self.old) }
        ensures sizes { SameSizes self.old self.new }
    {
        let rows = self.rows.as_mut_slice();
        let heads = self.heads.as_mut_slice();
        slices::remove_entering(rows, heads, &mut self.tally, p);
    }
}
