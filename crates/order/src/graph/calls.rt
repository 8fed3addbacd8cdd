// What a graph is asked, and how it changes.
ghost use Rattle.std.specs.Prelude.{◌≡◌, ℕ, ◌+◌, ◌^◌, ◌<◌, ◌≤◌, true, false, [], ◌↔◌, length, MatchResult, vec_len, vec_items};
ghost use Rattle.common.specs.declared.refusal.Refusal.TheVariants.{Circle};
ghost use Rattle.links.specs.Table.{Leads, LinkFrom, link as link_of};
ghost use Rattle.links.specs.Links.{Gained, Lost, Shut};
ghost use Rattle.links.specs.LinkTable.{held, capacity, places as places_in, SameSizes};
ghost use Rattle.links.specs.declared.row.Side.TheVariants.{Leaving, Entering};
ghost use Rattle.links.specs.LinksAt.{LinksOf, rest};
ghost use Rattle.order.specs.Tables.{rank_in, place_in, Past};
ghost use Rattle.order.specs.Marks.{Clean};
ghost use Rattle.order.specs.Admit.{Admitted, Circular};
ghost use Rattle.order.specs.Graph.{size, linked, ranks_of, order_of, place_room, link_room, RoomFor, SameSpace, SameRanks};

use super::Graph;
use crate::ranks::{first_ranks, place_with, rank_at};
use crate::search::admit;
use common::{PlaceNumber, Rank, Refusal};
use links::{Link, LinkTable, LinksAt};

// Takes every link out. A table without links is left as it is: to clear it costs its whole memory.
fn drain<R: Copy>(links: &mut LinkTable<R>)
    ensures empty { held links.new ≡ [] }
    ensures sizes { SameSizes links.old links.new }
{
    if links.len() > 0 {
        links.clear();
    }
}

impl<R: Copy> Graph<R> {
    // A graph without places, in this memory.
    pub fn new(links: LinkTable<R>, ranks: Vec<Rank>, order: Vec<PlaceNumber>) -> Graph<R>
        ensures places { size result ≡ 0 }
        ensures links { linked result ≡ [] }
        ensures room { (n m : ℕ) → RoomFor result n m ↔ ((n ≤ vec_len ranks) × (n ≤ vec_len order) × (n ≤ places_in links) × (m ≤ capacity links)) }
    {
        let mut links = links;
        drain(&mut links);
        Graph {
            links,
            ranks,
            order,
            places: 0,
        }
    }

    // Gives the memory back, with the links, the ranks and the places in it.
    pub fn into_parts(self) -> (LinkTable<R>, Vec<Rank>, Vec<PlaceNumber>)
        ensures { result ≡ (self.links, self.ranks, self.order) }
    {
        let Graph {
            links,
            ranks,
            order,
            ..
        } = self;
        (links, ranks, order)
    }

    // Whether the tables have room for n places and m links.
    pub fn has_room(&self, n: usize, m: usize) -> bool
        ensures { (result ≡ true) ↔ RoomFor self.now n m }
    {
        let places = self
            .ranks
            .len()
            .min(self.order.len())
            .min(self.links.places());
        n <= places && m <= self.links.capacity()
    }

    // The link table.
    pub fn links(&self) -> &LinkTable<R>
        ensures { result.now ≡ self.now.links }
    {
        &self.links
    }

    // The ranks, by place.
    pub fn ranks(&self) -> &[Rank]
        ensures { result.now ≡ ranks_of self.now }
    {
        self.ranks.as_slice()
    }

    // The places, by rank.
    pub fn order(&self) -> &[PlaceNumber]
        ensures { result.now ≡ order_of self.now }
    {
        self.order.as_slice()
    }

    // How many places it has.
    pub fn places(&self) -> usize
        ensures { result ≡ size self.now }
    {
        self.places
    }

    // How many links there are.
    pub fn count(&self) -> usize
        ensures { result ≡ length (linked self.now) }
    {
        self.links.len()
    }

    // The rank of p.
    pub fn rank(&self, p: PlaceNumber) -> Rank
        requires { p.0 < length (ranks_of self.now) }
        ensures { result.0 ≡ rank_in (ranks_of self.now) p.0 }
    {
        rank_at(&self.ranks, p)
    }

    // The place that has the rank r.
    pub fn place(&self, r: Rank) -> PlaceNumber
        requires { r.0 < length (order_of self.now) }
        ensures at { result.0 ≡ place_in (order_of self.now) r.0 }
        ensures inside { r.0 < size self.now → result.0 < size self.now }
    {
        place_with(&self.order, r)
    }

    // These ask the link table, and say what it answers over the graph: two sides have two names, since `Side` is the table's own.
    // Whether a link leads from u to v.
    pub fn is_linked(&self, u: PlaceNumber, v: PlaceNumber) -> bool
        requires { u.0 < place_room self.now }
        ensures { (result ≡ true) ↔ Leads (linked self.now) u.0 v.0 }
    {
        self.links.is_linked(u, v)
    }

    // The link from u to v.
    pub fn get(&self, u: PlaceNumber, v: PlaceNumber) -> Option<Link<R>>
        requires { u.0 < place_room self.now }
        ensures { LinkFrom (linked self.now) u.0 v.0 result }
    {
        self.links.get(u, v)
    }

    // Whether a link leaves p.
    pub fn has_leaving(&self, p: PlaceNumber) -> bool
        requires { p.0 < place_room self.now }
        ensures { (result ≡ true) ↔ ((v : ℕ) × Leads (linked self.now) p.0 v) }
    {
        self.links.has_leaving(p)
    }

    // The links that leave p, by rising number of their targets.
    pub fn leaving(&self, p: PlaceNumber) -> LinksAt<'_, R>
        requires { p.0 < place_room self.now }
        ensures { LinksOf Leaving (linked self.now) (size self.now) p.0 (rest result) }
    {
        self.links.leaving(p)
    }

    // The links that enter p, by rising number of their sources.
    pub fn entering(&self, p: PlaceNumber) -> LinksAt<'_, R>
        requires { p.0 < place_room self.now }
        ensures { LinksOf Entering (linked self.now) (size self.now) p.0 (rest result) }
    {
        self.links.entering(p)
    }

    // Makes it a graph of n places without links, the place p at the rank p.
    pub fn reset(&mut self, n: usize)
        requires few { n < 2 ^ 31 }
        requires room { RoomFor self.old n 0 }
        ensures places { size self.new ≡ n }
        ensures links { linked self.new ≡ [] }
        ensures ranks { (p : ℕ) → p < n → rank_in (ranks_of self.new) p ≡ p }
        ensures order { (r : ℕ) → r < n → place_in (order_of self.new) r ≡ r }
        ensures past { Past n (ranks_of self.old) (ranks_of self.new) (order_of self.old) (order_of self.new) }
        ensures room { (k m : ℕ) → RoomFor self.old k m → RoomFor self.new k m }
    {
        drain(&mut self.links);
        first_ranks(self.ranks.as_mut_slice(), self.order.as_mut_slice(), n);
        self.places = n;
    }

    // Makes room for a new link from u to v. A link from a lower rank to a higher moves no rank. Any other is refused if it closes a circle,
    // and else the ranks from v's to u's are shared out again.
    pub fn admit(&mut self, marks: &mut [u8], u: PlaceNumber, v: PlaceNumber) -> Result<(), Refusal>
        requires ends { (u.0 < size self.old) × (v.0 < size self.old) }
        requires marks { size self.old ≤ length marks.old }
        requires clean { Clean (size self.old) marks.old }
        ensures space { SameSpace self.old self.new }
        ensures links { self.new.links ≡ self.old.links }
        ensures still { MatchResult result (λ _. Unit {0}) (λ _. self.new ≡ self.old) }
        ensures marks { marks.new ≡ marks.old }
        ensures answer { MatchResult result (λ _. Admitted (size self.old) (linked self.old) u.0 v.0 (ranks_of self.old) (ranks_of self.new) (order_of self.old) (order_of self.new)) (λ e. (e ≡ Circle) × Circular (linked self.old) u.0 v.0 (ranks_of self.old) (ranks_of self.new) (order_of self.old) (order_of self.new)) }
    {
        let n = self.places;
        let ranks = self.ranks.as_mut_slice();
        let order = self.order.as_mut_slice();
        let rows = self.links.rows();
        let heads = self.links.heads();
        let tally = self.links.tally();
        admit(ranks, order, rows, heads, tally, marks, n, u, v)
    }

    // Puts a link from u to v in, unless it closes a circle.
    pub fn link(
        &mut self,
        marks: &mut [u8],
        u: PlaceNumber,
        v: PlaceNumber,
        passage: R,
    ) -> Result<(), Refusal>
        requires ends { (u.0 < size self.old) × (v.0 < size self.old) }
        requires marks { size self.old ≤ length marks.old }
        requires clean { Clean (size self.old) marks.old }
        requires room { length (linked self.old) < link_room self.old }
        requires fresh { Leads (linked self.old) u.0 v.0 → ⊥ }
        ensures space { SameSpace self.old self.new }
        ensures marks { marks.new ≡ marks.old }
        ensures ranks { MatchResult result (λ _. Admitted (size self.old) (linked self.old) u.0 v.0 (ranks_of self.old) (ranks_of self.new) (order_of self.old) (order_of self.new)) (λ e. (e ≡ Circle) × Circular (linked self.old) u.0 v.0 (ranks_of self.old) (ranks_of self.new) (order_of self.old) (order_of self.new)) }
        ensures still { MatchResult result (λ _. Unit {0}) (λ _. self.new ≡ self.old) }
        ensures links { MatchResult result (λ _. Gained (linked self.old) (linked self.new) (link_of u v passage)) (λ _. linked self.new ≡ linked self.old) }
        ensures counted { MatchResult result (λ _. length (linked self.new) ≡ length (linked self.old) + 1) (λ _. length (linked self.new) ≡ length (linked self.old)) }
    {
        self.admit(marks, u, v)?;
        self.links.insert(u, v, passage);
        Ok(())
    }

    // Takes the link from u to v out, and says whether there was one.
    pub fn unlink(&mut self, u: PlaceNumber, v: PlaceNumber) -> bool
        requires { u.0 < place_room self.old }
        ensures space { SameSpace self.old self.new }
        ensures ranked { SameRanks self.old self.new }
        ensures lost { Lost (linked self.old) (linked self.new) u.0 v.0 }
        ensures told { (result ≡ true) ↔ Leads (linked self.old) u.0 v.0 }
        ensures counted { result ≡ true → length (linked self.new) + 1 ≡ length (linked self.old) }
        ensures still { result ≡ false → self.new ≡ self.old }
        ensures fewer { length (linked self.new) ≤ length (linked self.old) }
    {
        self.links.remove(u, v)
    }

    // Takes every link into p out.
    pub fn unlink_entering(&mut self, p: PlaceNumber)
        requires { p.0 < place_room self.old }
        ensures space { SameSpace self.old self.new }
        ensures ranked { SameRanks self.old self.new }
        ensures shut { Shut (linked self.old) (linked self.new) p.0 }
        ensures fewer { length (linked self.new) ≤ length (linked self.old) }
    {
        self.links.remove_entering(p);
    }
}
