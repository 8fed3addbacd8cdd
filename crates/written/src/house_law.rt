// The house label and its passages read back.
ghost use Rattle.parts.specs.Spelling.{Again};
ghost use Rattle.written.specs.HouseText.{house_label, house_passage};

use super::law::written_stands;
use house::House;

// Read before a closing bracket, what is written for a house label or passage gives an equal one, and the reading stops at that bracket.
pub fn house_stands()
    ensures label { Again house_label }
    ensures passage { Again house_passage }
{
    written_stands::<House>();
}
