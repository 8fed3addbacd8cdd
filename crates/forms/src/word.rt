// Readers of the words, places and days of a form.
ghost use Rattle.std.specs.Prelude.{◌≡◌, ℕ, ◌+◌};
ghost use Rattle.reading.specs.Reading.{pick};
ghost use Rattle.reading.specs.Agree.{Takes};
ghost use Rattle.forms.specs.Grammar.{named, keywords, place};
ghost use Rattle.forms.specs.Meaning.{number_of, choice_of};

use super::form::Keyword;
use common::PlaceNumber;
use items::Item;
use reading::{Fault, Mark, Reader, not_allowed};

// The form that a word names, if it names one.
fn keyword_in(word: &[u8]) -> Option<Keyword>
    ensures { choice_of result ≡ named word.now }
{
    match word {
        b"bring" => Some(Keyword::Bring),
        b"own" => Some(Keyword::Own),
        b"link" => Some(Keyword::Link),
        b"unlink" => Some(Keyword::Unlink),
        b"label" => Some(Keyword::Label),
        b"explain" => Some(Keyword::Explain),
        b"list" => Some(Keyword::List),
        b"discard" => Some(Keyword::Discard),
        _ => None,
    }
}

pub(crate) fn take_keyword(reader: &mut Reader) -> Result<Keyword, Fault>
    ensures { Takes reader.old reader.new 1 (λ x. x) (pick keywords) result }
{
    let mut ahead = *reader;
    let Item::Word(_, word) = ahead.item()? else {
        return Err(not_allowed(reader.at));
    };
    let keyword = keyword_in(word).ok_or(not_allowed(reader.at))?;
    *reader = ahead;
    Ok(keyword)
}

// A space and the number of a place.
pub(crate) fn take_place(reader: &mut Reader) -> Result<PlaceNumber, Fault>
    ensures { Takes reader.old reader.new 1 number_of place result }
{
    let mut ahead = *reader;
    ahead.mark(Mark::Space)?;
    let number = ahead.number()?;
    *reader = ahead;
    Ok(PlaceNumber::new(number))
}
