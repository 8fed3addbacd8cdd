// Entries of the columns of places.
ghost use Rattle.std.specs.Prelude.{◌≡◌, ◌<◌, true, length, vec_len, slice_index_or, slice_set};
ghost use Rattle.tables.specs.Graph.{size, SameGraph, SameLoan};

use super::columns::Columns;
use common::PlaceNumber;

// The entry of p.
pub fn read<X: Copy>(table: &[X], p: PlaceNumber) -> X
    requires { p.0 < length table.now }
    ensures { result ≡ slice_index_or table.now p.0 result }
{
    let i = p.index();
    table[i]
}

// Makes x the entry of p.
pub fn write<X: Copy>(table: &mut Vec<X>, p: PlaceNumber, x: X)
    requires { p.0 < vec_len table.old }
    ensures entry { table.new.items ≡ slice_set table.old.items p.0 x }
    ensures long { vec_len table.new ≡ vec_len table.old }
{
    table[p.index()] = x;
}

impl<R: Copy, S: Copy> Columns<'_, R, S> {
    // Makes p present.
    pub fn bring(&mut self, p: PlaceNumber)
        requires { p.0 < size self.old }
        ensures entry { self.new.tables.now.present.items ≡ slice_set self.old.tables.now.present.items p.0 true }
        ensures long { vec_len self.new.tables.now.present ≡ vec_len self.old.tables.now.present }
        ensures rest { (self.new.tables.now.own ≡ self.old.tables.now.own) × (self.new.tables.now.labels ≡ self.old.tables.now.labels) × (self.new.tables.now.marks ≡ self.old.tables.now.marks) }
        ensures graph { SameGraph self.old self.new }
        ensures loan { SameLoan self.old self.new }
    {
        write(&mut self.tables.present, p, true);
    }
}
