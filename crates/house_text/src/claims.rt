// Claims and their passages in text.
ghost use Rattle.std.specs.Prelude.{◌≡◌, ℕ, List};
ghost use Rattle.reading.specs.Reading.{Read};
ghost use Rattle.reading.specs.Agree.{Takes};
ghost use Rattle.parts.specs.Parts.{Whole};
ghost use Rattle.house_text.specs.ClaimsText.{set_part, claims_name, some_rising, only_name, any_rising, every_claim};
ghost use Rattle.house_text.specs.ClaimsBack.{claims_whole, only_whole};

use super::rising::{put_claims, read_any, read_some};
use house::Claims;
use kinds::LabelKind;
use parts::{PartText, Sink};
use reading::{Fault, Reader};
use std::marker::PhantomData;

// How a set is written: its word, how many numbers may follow, and the set that has no part.
pub trait SetForm {
    ghost name: { List ℕ };

    ghost body: { Read ℕ };

    ghost none: { ℕ };

    fn name() -> &'static [u8]
        ensures { result.now ≡ name };

    fn none() -> u64
        ensures { result ≡ none };

    fn read(reader: &mut Reader) -> Result<u64, Fault>
        ensures { Takes reader.old reader.new 0 (λ x. x) body result };

    ghost whole: { Whole (set_part name body none) };
}

// One claim or more, and none without a part.
pub struct SomeClaims;

// Any number of claims, and all without a part.
pub struct OnlyClaims;

impl SetForm for SomeClaims {
    ghost name = { claims_name };

    ghost body = { some_rising };

    ghost none = { 0 };

    ghost whole = { claims_whole };

    fn name() -> &'static [u8] {
        b"claims"
    }

    fn none() -> u64 {
        0
    }

    fn read(reader: &mut Reader) -> Result<u64, Fault> {
        read_some(reader)
    }
}

impl SetForm for OnlyClaims {
    ghost name = { only_name };

    ghost body = { any_rising };

    ghost none = { every_claim };

    ghost whole = { only_whole };

    fn name() -> &'static [u8] {
        b"only"
    }

    fn none() -> u64 {
        u64::MAX
    }

    fn read(reader: &mut Reader) -> Result<u64, Fault> {
        read_any(reader)
    }
}

// A set of claims as a part.
pub struct SetText<F> {
    pub form: PhantomData<F>,
}

// `(claims N ..)`
pub type ClaimsText = SetText<SomeClaims>;

// `(only N ..)`
pub type OnlyText = SetText<OnlyClaims>;

impl<F: SetForm> PartText for SetText<F> {
    type Value = Claims;

    ghost part = { set_part F.SetForm.name F.SetForm.body F.SetForm.none };

    ghost whole = { F.SetForm.whole };

    fn is_word(word: &[u8]) -> bool {
        word == F::name()
    }

    fn none() -> Claims {
        Claims::from_row(F::none())
    }

    fn is_none(value: Claims) -> bool {
        value == Claims::from_row(F::none())
    }

    fn read_args(reader: &mut Reader, _word: &[u8]) -> Result<Claims, Fault> {
        Ok(Claims::from_row(F::read(reader)?))
    }

    fn put_inside<S: Sink>(value: Claims, out: &mut S) {
        out.put(F::name());
        put_claims(out, value);
    }
}
