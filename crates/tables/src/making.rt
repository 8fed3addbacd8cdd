// Lent tables checked, and columns over them cleared for a store.
ghost use Rattle.std.specs.Prelude.{◌≡◌, ◌≤◌, ◌↔◌, true, length, MatchResult};
ghost use Rattle.common.specs.Checks.{Refused, Passed};
ghost use Rattle.tables.specs.Room.{Limits, Room};
ghost use Rattle.tables.specs.Fill.{Filled};
ghost use Rattle.tables.specs.Graph.{size};
ghost use Rattle.tables.specs.Making.{making, Cleared};

use super::columns::Columns;
use super::tables::Tables;
use common::Refusal;
use kinds::LabelKind;
use links::{Slot, Tally, reset};
use order::first_ranks;

pub const MOST_PLACES: usize = 4096;

pub const MOST_LINKS: usize = 16384;

impl<R: Copy, S: Copy> Tables<R, S> {
    // Whether no table is too short for n places and m links.
    fn has_room(&self, n: usize, m: usize) -> bool
        ensures { (result ≡ true) ↔ Room self.now n m }
    {
        let labels = self.own.len().min(self.labels.len());
        let order = self.ranks.len().min(self.order.len());
        let flags = self.present.len().min(self.marks.len());
        let places = labels.min(order).min(flags).min(self.heads.len());
        n <= places && m <= self.links.len()
    }

    // Whether a store of n places for m links can be made over the tables, or why not.
    pub fn check(&self, n: usize, m: usize) -> Result<(), Refusal>
        ensures { MatchResult result (λ _. Passed (making self.now n m)) (λ e. Refused (making self.now n m) e) }
    {
        if !(1..=MOST_PLACES).contains(&n) || !(1..=MOST_LINKS).contains(&m) {
            return Err(Refusal::BadSize);
        }
        if !self.has_room(n, m) {
            return Err(Refusal::ShortTable);
        }
        Ok(())
    }
}

impl<'a, R: Copy, S: Copy> Columns<'a, R, S> {
    // Columns over these tables, whatever they hold: no place is theirs yet.
    pub fn new(tables: &'a mut Tables<R, S>) -> Columns<'a, R, S>
        ensures places { size result ≡ 0 }
        ensures kept { result.tables.now ≡ tables.old }
        ensures loan { result.tables.ghost_name ≡ tables.entry.ghost_name }
    {
        let tally = Tally {
            count: 0,
            free: Slot(0),
        };
        Columns {
            tables,
            tally,
            places: 0,
        }
    }
}

// Writes x into the first n entries. (The slice's own `fill` asks for a clone that cannot fail, which `Copy` does not promise.)
fn fill<X: Copy>(table: &mut [X], n: usize, x: X)
    requires { n ≤ length table.old }
    ensures { Filled n x table.old table.new }
{
    for entry in table[..n].iter_mut() {
        *entry = x;
    }
}

// Clears the columns for a new store of n places.
pub fn clear<K: LabelKind>(columns: &mut Columns<'_, K::Row, K::PassageRow>, n: usize, m: usize)
    requires limits { Limits n m }
    requires room { Room columns.old.tables.now n m }
    ensures { Cleared K.means n m columns.old columns.new }
{
    let row = K::empty().to_row();
    let tables = &mut *columns.tables;
    fill(tables.present.as_mut_slice(), n, false);
    fill(tables.own.as_mut_slice(), n, row);
    fill(tables.labels.as_mut_slice(), n, row);
    fill(tables.marks.as_mut_slice(), n, 0);
    first_ranks(tables.ranks.as_mut_slice(), tables.order.as_mut_slice(), n);
    columns.tally = reset(tables.links.as_mut_slice(), tables.heads.as_mut_slice());
    columns.places = n;
}
