// The lines of a text, one after the other.
ghost use Rattle.std.specs.Prelude.{◌≡◌, ℕ, ◌+◌, ◌<◌, ◌≤◌, length};
ghost use Rattle.reading.specs.Agree.{rest};
ghost use Rattle.forms.specs.Grammar.{form};
ghost use Rattle.forms.specs.Lines.{after_line, LineRead};

use super::form::Form;
use super::rest::read_form;
use items::before_break;
use reading::{Fault, Reader};
use written::Written;

// Past the next newline, or to the text's end.
fn skip_line(reader: &mut Reader)
    ensures text { reader.new.text ≡ reader.old.text }
    ensures rest { rest reader.new ≡ after_line (rest reader.old) }
    ensures from { reader.old.at ≤ reader.new.at }
    ensures rises { reader.old.at < length reader.old.text.now → reader.old.at < reader.new.at }
{
    let end = reader.at + before_break(&reader.text[reader.at..]);
    reader.at = if end < reader.text.len() {
        end + 1
    } else {
        end
    };
}

// The form or the fault of the line at which the reader stands. Then it stands at the next line.
pub fn read_line<K: Written>(reader: &mut Reader) -> Result<Form<K, K::Passage>, Fault>
    requires { reader.old.at < length reader.old.text.now }
    ensures text { reader.new.text ≡ reader.old.text }
    ensures line { LineRead reader.old.text.now reader.old.at (form K.Text.TextForm.spelling K.PassageText.TextForm.spelling (rest reader.old)) result reader.new.at }
{
    let read = read_form::<K>(reader);
    if let Err(fault) = read {
        reader.at = fault.at;
        skip_line(reader);
    }
    read
}
