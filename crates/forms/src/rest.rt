// A form up to and with its newline.
ghost use Rattle.std.specs.Prelude.{◌≡◌, ◌+◌};
ghost use Rattle.reading.specs.Agree.{Takes};
ghost use Rattle.forms.specs.Grammar.{form, form_rest, said};
ghost use Rattle.forms.specs.Meaning.{line_of};

use super::form::{Form, Keyword};
use super::word::{take_keyword, take_place};
use reading::{Fault, Mark, Reader};
use written::Written;

// What follows the word of a form, up to the closing bracket.
fn take_said<K: Written>(
    reader: &mut Reader,
    keyword: Keyword,
) -> Result<Form<K, K::Passage>, Fault>
    ensures { Takes reader.old reader.new 1 line_of (said K.Text.TextForm.spelling K.PassageText.TextForm.spelling keyword) result }
{
    let mut ahead = *reader;
    let form = match keyword {
        Keyword::Bring => Form::Bring(take_place(&mut ahead)?),
        Keyword::Own => {
            let place = take_place(&mut ahead)?;
            let (label, _) = K::read(&mut ahead, false, true)?;
            Form::Own(place, label)
        }
        Keyword::Link => {
            let from = take_place(&mut ahead)?;
            let to = take_place(&mut ahead)?;
            let (passage, _) = K::read_passage(&mut ahead, false, true)?;
            Form::Link(from, to, passage)
        }
        Keyword::Unlink => {
            let from = take_place(&mut ahead)?;
            Form::Unlink(from, take_place(&mut ahead)?)
        }
        Keyword::Label => Form::Label(take_place(&mut ahead)?),
        Keyword::Explain => {
            let place = take_place(&mut ahead)?;
            Form::Explain(place, ahead.spaced_day()?)
        }
        Keyword::List => Form::List(ahead.spaced_day()?),
        Keyword::Discard => {
            let place = take_place(&mut ahead)?;
            Form::Discard(place, ahead.spaced_day()?)
        }
    };
    *reader = ahead;
    Ok(form)
}

fn take_rest<K: Written>(
    reader: &mut Reader,
    keyword: Keyword,
) -> Result<Form<K, K::Passage>, Fault>
    ensures { Takes reader.old reader.new 1 line_of (form_rest K.Text.TextForm.spelling K.PassageText.TextForm.spelling keyword) result }
{
    let mut ahead = *reader;
    let form = take_said::<K>(&mut ahead, keyword)?;
    ahead.mark(Mark::Close)?;
    ahead.mark(Mark::Newline)?;
    *reader = ahead;
    Ok(form)
}

// One form with its newline.
pub fn read_form<K: Written>(reader: &mut Reader) -> Result<Form<K, K::Passage>, Fault>
    ensures { Takes reader.old reader.new 1 line_of (form K.Text.TextForm.spelling K.PassageText.TextForm.spelling) result }
{
    let mut ahead = *reader;
    ahead.mark(Mark::Open)?;
    let keyword = take_keyword(&mut ahead)?;
    let form = take_rest::<K>(&mut ahead, keyword)?;
    *reader = ahead;
    Ok(form)
}
