// A permit that is out, as the store keeps it.
use calendar::Day;
use common::PlaceNumber;

// The place and the day of a permit that is out.
#[derive(Clone, Copy)]
pub struct Grant {
    pub place: PlaceNumber,
    pub day: Day,
}
