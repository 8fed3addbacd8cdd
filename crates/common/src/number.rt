// Place numbers and ranks are separate counters: neither is taken for the other, or for a day. So `new` says which one is made.
// `number` is no `From`: `u32::from` would be no shorter and say less.
ghost use Rattle.std.specs.Prelude.{◌≡◌};

// The number of a place. Whether a store has that place is for the store to say.
#[derive(Clone, Copy, PartialEq, Eq, PartialOrd, Ord, Debug, Hash)]
pub struct PlaceNumber(u32);

// Where a place stands in the topological order, counted from 0.
#[derive(Clone, Copy, PartialEq, Eq, PartialOrd, Ord, Debug, Hash)]
pub struct Rank(u32);

impl PlaceNumber {
    pub fn new(number: u32) -> PlaceNumber
        ensures { result.0 ≡ number }
    {
        PlaceNumber(number)
    }

    pub fn number(self) -> u32
        ensures { result ≡ self.0 }
    {
        let PlaceNumber(number) = self;
        number
    }

    // Where the place lies in a table of places.
    pub fn index(self) -> usize
        ensures { result ≡ self.0 }
    {
        self.number() as usize
    }
}

impl Rank {
    pub fn new(number: u32) -> Rank
        ensures { result.0 ≡ number }
    {
        Rank(number)
    }

    // Where the rank lies in a table of ranks.
    pub fn index(self) -> usize
        ensures { result ≡ self.0 }
    {
        self.0 as usize
    }
}
