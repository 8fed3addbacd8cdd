// Permits: leave to erase one place on one day.
ghost use Rattle.std.specs.Prelude.{◌≡◌, Bool, true, false, ◌&&◌, ◌==◌};

use calendar::Day;
use common::PlaceNumber;

// A permit for one place and one day, in plain numbers and not a `Grant`. It has to be spent, by a discard or a give back, before it ends.
// `spent` is a flag by a rule of the project: the drop demands it.
pub struct Permit {
    place: PlaceNumber,
    day: Day,
    spent: bool,
}

impl Drop for Permit {
    fn drop(self)
        requires { self.spent ≡ true }
    {
        let Permit {
            place: _,
            day: _,
            spent: _,
        } = self;
    }
}

impl Permit {
    // A permit as its numbers tell it, wherever it was granted. A store takes it for its own exactly if it has one out for this place and day.
    pub fn from_numbers(place: PlaceNumber, day: Day) -> Permit
        ensures { result ≡ record { place = place; day = day; spent = false } }
    {
        Permit {
            place,
            day,
            spent: false,
        }
    }

    pub fn place(&self) -> PlaceNumber
        ensures { result ≡ self.now.place }
    {
        self.place
    }

    pub fn day(&self) -> Day
        ensures { result ≡ self.now.day }
    {
        self.day
    }

    // Whether it is for this place and day.
    pub fn is_for(&self, place: PlaceNumber, day: Day) -> bool
        ensures { result ≡ (self.now.place.0 == place.0 && self.now.day.number == day.number) }
    {
        self.place == place && self.day == day
    }

    // Lets it end.
    pub(crate) fn spend(self) {
        let mut permit = self;
        permit.spent = true;
    }
}
