// What is left of a room.
ghost use Rattle.std.specs.Prelude.{◌≡◌, ℕ, List, length};
ghost use Rattle.parts.specs.Rooms.{Lessens, room_laws};

use super::sink::Sink;

// None is left once something did not fit.
#[derive(Clone, Copy, PartialEq, Eq, Debug)]
pub struct Room {
    pub left: Option<usize>,
}

impl Room {
    // Takes so many bytes off.
    fn lessen(&mut self, bytes: usize)
        ensures { (s : List ℕ) → length s ≡ bytes → Lessens self.old.left s self.new.left }
    {
        self.left = self.left.and_then(|room| room.checked_sub(bytes));
    }
}

impl Sink for Room {
    ghost fits = { λ w s. Unit {0} };

    ghost took = { λ w s v. Lessens w.left s v.left };

    ghost laws = { room_laws };

    fn put(&mut self, bytes: &[u8]) {
        self.lessen(bytes.len());
    }

    fn is_full(&self) -> bool {
        self.left.is_none()
    }

    fn skip(&mut self, bytes: usize) -> bool {
        self.lessen(bytes);
        true
    }
}
