// Reading and setting marks.
ghost use Rattle.std.specs.Prelude.{◌≡◌, ◌<◌, slice_set};
ghost use Rattle.order.specs.Loans.{SameLoan};
ghost use Rattle.order.specs.Tables.{marked_in};

use super::{Marked, is_marked};
use common::PlaceNumber;

impl Marked<'_> {
    // Whether p is a place that is marked.
    pub fn has(&self, p: PlaceNumber) -> bool
        ensures { result ≡ marked_in self.now.n self.now.bytes.now p.0 }
    {
        p.index() < self.n && is_marked(self.bytes, p)
    }

    // Marks p.
    pub fn set(&mut self, p: PlaceNumber)
        requires { p.0 < self.old.n }
        ensures marked { self.new.bytes.now ≡ slice_set self.old.bytes.now p.0 1 }
        ensures same { SameLoan self.old self.new }
    {
        self.bytes[p.index()] = 1;
    }
}
