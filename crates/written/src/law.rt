// What holds of every written kind.
ghost use Rattle.parts.specs.Spelling.{Again};

use super::kind::Written;

// Read before a closing bracket, what is written for a label or a passage gives an equal one, and the reading stops at that bracket.
pub fn written_stands<K: Written>()
    ensures label { Again K.Text.TextForm.spelling }
    ensures passage { Again K.PassageText.TextForm.spelling }
{
    K::reads_back();
}
