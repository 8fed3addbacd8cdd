// The front of a part: the space before it, the opening bracket and the word.
ghost use Rattle.std.specs.Prelude.{◌≡◌, Bool, true, List, ℕ};
ghost use Rattle.reading.specs.Reading.{pick, words};
ghost use Rattle.reading.specs.Agree.{Takes};
ghost use Rattle.parts.specs.Spelling.{gap, entry};

use super::part::PartText;
use items::Item;
use reading::{Fault, Mark, Reader, not_allowed};

// Some words. A type and no closure: a clause on what a closure answers for every word got each caller a proof by hand.
pub(crate) trait Words {
    ghost among: { List ℕ → Bool };

    fn has(word: &[u8]) -> bool
        ensures { result ≡ among word.now };
}

// All words.
pub(crate) struct AnyWord;

impl Words for AnyWord {
    ghost among = { λ _. true };

    fn has(_word: &[u8]) -> bool {
        true
    }
}

// The words that begin a part of this sort.
impl<P: PartText> Words for P {
    ghost among = { P.PartText.part.mine };

    fn has(word: &[u8]) -> bool {
        P::is_word(word)
    }
}

fn gap(reader: &mut Reader, started: bool) -> Result<(), Fault>
    ensures { Takes reader.old reader.new 0 (λ x. x) (gap started) result }
{
    if started {
        reader.mark(Mark::Space)
    } else {
        Ok(())
    }
}

fn word<'a, W: Words>(reader: &mut Reader<'a>) -> Result<&'a [u8], Fault>
    ensures { Takes reader.old reader.new 1 (λ x. x.now) (pick (words W.Words.among)) result }
{
    let mut ahead = *reader;
    let Item::Word(_, word) = ahead.item()? else {
        return Err(not_allowed(reader.at));
    };
    if !W::has(word) {
        return Err(not_allowed(reader.at));
    }
    *reader = ahead;
    Ok(word)
}

// Up to the word of the next part.
pub(crate) fn entry<'a, W: Words>(reader: &mut Reader<'a>, started: bool) -> Result<&'a [u8], Fault>
    ensures { Takes reader.old reader.new 0 (λ x. x.now) (entry W.Words.among started) result }
{
    let mut ahead = *reader;
    gap(&mut ahead, started)?;
    ahead.mark(Mark::Open)?;
    let word = word::<W>(&mut ahead)?;
    *reader = ahead;
    Ok(word)
}
