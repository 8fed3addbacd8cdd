// The text form of a value: how it is read, and how it is put.
ghost use Rattle.std.specs.Prelude.{◌≡◌, ◌+◌, Bool, true, List, [], ◌∷◌, length};
ghost use Rattle.reading.specs.Agree.{Takes, rest};
ghost use Rattle.parts.specs.Spelling.{Spelling, Spells, as_text, text_by, begun};
ghost use Rattle.parts.specs.Parts.{passes, own_part, one_spells};
ghost use Rattle.parts.specs.Ones.{one_laws};

use super::entry::{AnyWord, entry};
use super::part::PartText;
use super::sink::Sink;
use reading::{Fault, Mark, Reader};

// `spelling` says what is written for a value and what is read; by the law, what is written reads back equal. In the functions, `started` says that
// something stands before on the line, so that a space is due before the next part, and `more` that parts of another sort may follow.
pub trait TextForm {
    type Value: Copy;

    ghost spelling: { Spelling Self.Value };

    // The value, and whether something stands before what follows it: the flag is no Option, since the value is there either way.
    // The reader and two flags are no struct: `more` differs from part to part, and `put` has `started` alone.
    fn read(reader: &mut Reader, more: bool, started: bool) -> Result<(Self::Value, bool), Fault>
        ensures { Takes reader.old reader.new 0 (λ x. x) (spelling.reading more started) result };

    // Answers whether something stands before what follows.
    fn put<S: Sink>(value: Self::Value, out: &mut S, started: bool) -> bool
        requires { S.fits out.old (as_text spelling started value) }
        ensures text { S.took out.old (as_text spelling started value) out.new }
        ensures begun { result ≡ begun spelling started value };

    ghost spelled: { Spells spelling };
}

// No part of this sort comes.
fn passes_on<P: PartText>(reader: Reader, more: bool, started: bool) -> bool
    ensures { result ≡ passes P.PartText.part.mine more started (rest reader.entry) }
{
    if reader.at_close() {
        return true;
    }
    if !more {
        return false;
    }
    let mut ahead = reader;
    entry::<AnyWord>(&mut ahead, started).is_ok_and(|word| !P::is_word(word))
}

fn own_part<P: PartText>(reader: &mut Reader, started: bool) -> Result<P::Value, Fault>
    ensures { Takes reader.old reader.new 0 (λ v. (v, true)) (own_part P.PartText.part started) result }
{
    let mut ahead = *reader;
    let word = entry::<P>(&mut ahead, started)?;
    let value = P::read_args(&mut ahead, word)?;
    ahead.mark(Mark::Close)?;
    *reader = ahead;
    Ok(value)
}

// An opening bracket, after a space if one is due.
fn put_open<S: Sink>(out: &mut S, started: bool)
    requires { S.fits out.old (text_by started (32 ∷ 40 ∷ [])) }
    ensures { S.took out.old (text_by started (32 ∷ 40 ∷ [])) out.new }
{
    if started {
        out.put(b" (");
    } else {
        out.put(b"(");
    }
}

// A part is a text form.
impl<P: PartText> TextForm for P {
    type Value = P::Value;

    ghost spelling = { one_spells P.PartText.part };

    ghost spelled = { one_laws P.PartText.part P.PartText.whole };

    fn read(reader: &mut Reader, more: bool, started: bool) -> Result<(P::Value, bool), Fault> {
        if passes_on::<P>(*reader, more, started) {
            return Ok((P::none(), started));
        }
        let value = own_part::<P>(reader, started)?;
        Ok((value, true))
    }

    fn put<S: Sink>(value: P::Value, out: &mut S, started: bool) -> bool {
        if P::is_none(value) {
            return started;
        }
        if out.is_full() {
            return true;
        }
        put_open(out, started);
        P::put_inside(value, out);
        out.put(b")");
        true
    }
}
