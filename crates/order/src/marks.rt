// Mark bytes, lent for one search.
ghost use Rattle.std.specs.Prelude.{◌≡◌, ◌<◌, ◌≤◌, length};
ghost use Rattle.order.specs.Tables.{is_set};
ghost use Rattle.order.specs.Marks.{Cleared};

use common::PlaceNumber;

mod calls;

// The first n bytes are marks of places, and are cleared when the search ends. They are u8, memory that the caller lends as it is.
// n stands beside the bytes: the bytes after it are the caller's too, and stay. Of two parts each caller would have to say how they make one again.
pub struct Marked<'a> {
    pub bytes: &'a mut [u8],
    pub n: usize,
    ghost fits: { n ≤ length bytes.now },
}

// Whether the mark of p is set.
pub fn is_marked(marks: &[u8], p: PlaceNumber) -> bool
    requires { p.0 < length marks.now }
    ensures { result ≡ is_set marks.now p.0 }
{
    marks[p.index()] == 1
}

fn clear(bytes: &mut [u8], n: usize)
    requires { n ≤ length bytes.old }
    ensures { Cleared n bytes.old bytes.new }
{
    bytes[..n].fill(0);
}

impl Drop for Marked<'_> {
    fn drop(self)
        ensures { Cleared self.entry.n self.entry.bytes.now self.exit.0.now }
    {
        let Marked { bytes, n } = self;
        clear(bytes, n);
    }
}
