// Taking a place out of the columns of a store.
#![tactic(auto)]

ghost use Rattle.std.specs.Prelude.{◌<◌};
ghost use Rattle.tables.specs.Graph.{size};
ghost use Rattle.discarding.specs.Discarded.{Discarded};

use common::PlaceNumber;
use kinds::LabelKind;
use tables::{Columns, write};

// Takes every link into p away, empties its own label and its label, and makes it absent.
pub fn discard_in<K: LabelKind>(t: &mut Columns<'_, K::Row, K::PassageRow>, p: PlaceNumber)
    requires { p.0 < size t.old }
    ensures { Discarded K.means p.0 t.old t.new }
{
    let row = K::empty().to_row();
    t.unlink_entering(p);
    write(&mut t.tables.own, p, row);
    write(&mut t.tables.labels, p, row);
    write(&mut t.tables.present, p, false);
}
