// What a store holds, and what always stands in it.
ghost use Rattle.std.specs.Prelude.{◌≡◌, ◌<◌, ◌≤◌, length};
ghost use Rattle.tables.specs.Graph.{size, linked};
ghost use Rattle.tables.specs.Room.{Room};
ghost use Rattle.store.specs.Held.{HoldsPlace};

use crate::grant::Grant;
use common::Refusal;
use kinds::LabelKind;
use tables::Columns;

mod calls;
mod permits;

// A store of n places for at most m links, in the tables that the caller lends. Over refused tables it has no places: n and m are 0, and `made` says why.
// `made` is a field, since making cannot fail. (A `Result` around a store, which holds a `&mut` and has ghost fields, gets no proof: the borrow checker does not cover it.)
// That labels are the joins is no field: each call says that it keeps it.
#[derive(Drop)]
pub struct Store<'a, K: LabelKind> {
    columns: Columns<'a, K::Row, K::PassageRow>,
    n: usize,
    m: usize,
    permit: Option<Grant>,
    made: Result<(), Refusal>,
    ghost room: { Room columns.tables.now n m },
    ghost places: { size columns ≡ n },
    ghost few: { (0 < n → length (linked columns) ≤ m) },
    ghost held: { HoldsPlace permit n },
}
