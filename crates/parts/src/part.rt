// A value that is written as one part: none, or a bracketed part that a word begins.
ghost use Rattle.std.specs.Prelude.{◌≡◌, Bool};
ghost use Rattle.reading.specs.Agree.{Takes};
ghost use Rattle.parts.specs.Parts.{Part, Whole, inside};

use super::sink::Sink;
use reading::{Fault, Reader};

// `part` says what the part looks like. The functions are about what stands between the brackets.
pub trait PartText {
    type Value: Copy;

    ghost part: { Part Self.Value };

    // Whether the word begins a part of this sort.
    fn is_word(word: &[u8]) -> bool
        ensures { result ≡ part.mine word.now };

    // The value without a part.
    fn none() -> Self::Value
        ensures { result ≡ part.none };

    fn is_none(value: Self::Value) -> bool
        ensures { result ≡ part.empty value };

    // What stands between the word and the closing bracket.
    fn read_args(reader: &mut Reader, word: &[u8]) -> Result<Self::Value, Fault>
        ensures { Takes reader.old reader.new 0 (λ x. x) (part.body word.now) result };

    // The word, and what follows it. Also a value without a part has this text, which may be empty.
    fn put_inside<S: Sink>(value: Self::Value, out: &mut S)
        requires { S.fits out.old (inside part value) }
        ensures { S.took out.old (inside part value) out.new };

    ghost whole: { Whole part };
}
