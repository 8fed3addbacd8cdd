// What a written kind is.
ghost use Rattle.std.specs.Prelude.{◌≡◌, false};
ghost use Rattle.reading.specs.Agree.{Takes};
ghost use Rattle.parts.specs.Spelling.{Again, as_text};
ghost use Rattle.parts.specs.Buffers.{Writes};

use common::Refusal;
use kinds::LabelKind;
use parts::{TextForm, write};
use reading::{Fault, Reader};

// A label kind whose labels and passages can be written and read back: it names the text form of each, and the forms have the laws.
// Each function has two names, since labels and passages are two types of one kind; both only go through the forms.
pub trait Written: LabelKind {
    type Text: TextForm<Value = Self>;

    type PassageText: TextForm<Value = Self::Passage>;

    // The label, and whether something stands before what follows it.
    final fn read(reader: &mut Reader, more: bool, started: bool) -> Result<(Self, bool), Fault>
        ensures { Takes reader.old reader.new 0 (λ x. x) (Self.Text.TextForm.spelling.reading more started) result }
    {
        Self::Text::read(reader, more, started)
    }

    final fn read_passage(
        reader: &mut Reader,
        more: bool,
        started: bool,
    ) -> Result<(Self::Passage, bool), Fault>
        ensures { Takes reader.old reader.new 0 (λ x. x) (Self.PassageText.TextForm.spelling.reading more started) result }
    {
        Self::PassageText::read(reader, more, started)
    }

    // Answers the length of what is written. A buffer that is too short is refused, and stays as it was.
    final fn write(self, out: &mut [u8]) -> Result<usize, Refusal>
        ensures { Writes out.old (as_text Self.Text.TextForm.spelling false self) out.new result }
    {
        write::<Self::Text>(self, out)
    }

    final fn write_passage(passage: Self::Passage, out: &mut [u8]) -> Result<usize, Refusal>
        ensures { Writes out.old (as_text Self.PassageText.TextForm.spelling false passage) out.new result }
    {
        write::<Self::PassageText>(passage, out)
    }

    // Read before a closing bracket, what is written gives an equal label or passage, and the reading stops at that bracket.
    final fn reads_back()
        ensures label { Again Self.Text.TextForm.spelling }
        ensures passage { Again Self.PassageText.TextForm.spelling }
    {}
}
