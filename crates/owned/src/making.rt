// Owned tables made, and lent.
ghost use Rattle.std.specs.Prelude.{◌≡◌, ℕ, ◌<◌, ◌≤◌, ◌↔◌, [], vec_len, MatchResult};
ghost use Rattle.common.specs.Checks.{Refused, Passed};
ghost use Rattle.links.specs.Table.{Kept, links as links_in};
ghost use Rattle.order.specs.Marks.{Clean};
ghost use Rattle.order.specs.Tables.{Ordered};
ghost use Rattle.tables.specs.Graph.{linked};
ghost use Rattle.tables.specs.Making.{making};
ghost use Rattle.tables.specs.Room.{Room};
ghost use Rattle.owned.specs.Lent.{columns};

use crate::owner::OwnedTables;
use common::{PlaceNumber, Rank, Refusal};
use links::{Heads, LinkRow, Tally};
use tables::{Columns, Tables};

impl<R: Copy, S: Copy> OwnedTables<R, S> {
    // The tables over this memory, whatever it holds: no place is theirs yet.
    pub fn new(
        present: Vec<bool>,
        own: Vec<R>,
        labels: Vec<R>,
        ranks: Vec<Rank>,
        order: Vec<PlaceNumber>,
        heads: Vec<Heads>,
        links: Vec<LinkRow<S>>,
        marks: Vec<u8>,
    ) -> OwnedTables<R, S>
        ensures room { (n m : ℕ) → Room result.tables n m ↔ ((((n ≤ vec_len present) × (n ≤ vec_len marks)) × ((n ≤ vec_len own) × (n ≤ vec_len labels))) × ((n ≤ vec_len ranks) × (n ≤ vec_len order) × (n ≤ vec_len heads) × (m ≤ vec_len links))) }
        ensures places { result.places ≡ 0 }
        ensures links { linked (columns result) ≡ [] }
        ensures kept { (result.tables.present ≡ present) × (result.tables.own ≡ own) × (result.tables.labels ≡ labels) × (result.tables.ranks ≡ ranks) × (result.tables.order ≡ order) × (result.tables.marks ≡ marks) }
    {
        let mut heads = heads;
        let mut links = links;
        let tally = links::reset(links.as_mut_slice(), heads.as_mut_slice());
        let tables = Tables {
            present,
            own,
            labels,
            ranks,
            order,
            heads,
            links,
            marks,
        };
        OwnedTables {
            tables,
            tally,
            places: 0,
        }
    }

    // Whether they can be cleared for a store of n places for m links, or why not.
    pub fn check(&self, n: usize, m: usize) -> Result<(), Refusal>
        ensures { MatchResult result (λ _. Passed (making self.now.tables n m)) (λ e. Refused (making self.now.tables n m) e) }
    {
        self.tables.check(n, m)
    }
}

// Columns over tables that hold a graph.
pub(crate) fn over<'a, R: Copy, S: Copy>(
    tables: &'a mut Tables<R, S>,
    tally: Tally,
    places: usize,
) -> Columns<'a, R, S>
    requires flags { (places ≤ vec_len tables.old.present) × (places ≤ vec_len tables.old.marks) }
    requires rows { (places ≤ vec_len tables.old.own) × (places ≤ vec_len tables.old.labels) }
    requires wide { places ≤ vec_len tables.old.heads }
    requires kept { Kept tables.old.links.items tables.old.heads.items tally }
    requires ordered { Ordered places tables.old.ranks.items tables.old.order.items (links_in tables.old.links.items) }
    requires clean { Clean places tables.old.marks.items }
    ensures tables { result.tables.now ≡ tables.old }
    ensures rest { (result.tally ≡ tally) × (result.places ≡ places) }
    ensures loan { result.tables.ghost_name ≡ tables.entry.ghost_name }
{
    Columns {
        tables,
        tally,
        places,
    }
}
