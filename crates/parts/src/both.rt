// One text form after the other.
ghost use Rattle.parts.specs.Spelling.{Apart};
ghost use Rattle.parts.specs.Pairing.{pair_spells};
ghost use Rattle.parts.specs.PairLaws.{pair_laws};

use super::form::TextForm;
use super::sink::Sink;
use kinds::Pair;
use reading::{Fault, Reader};
use std::marker::PhantomData;

// A form that shares no word with T, so that the parts of T may follow its own.
pub trait Before<T: TextForm>: TextForm {
    ghost apart: { Apart Self.TextForm.spelling.names T.TextForm.spelling.names };
}

// The form of a pair: the parts of the first, then those of the second.
pub struct Both<S, T> {
    pub forms: PhantomData<(S, T)>,
}

impl<S: Before<T>, T: TextForm> TextForm for Both<S, T> {
    type Value = Pair<S::Value, T::Value>;

    ghost spelling = { pair_spells S.TextForm.spelling T.TextForm.spelling };

    ghost spelled = { pair_laws S.TextForm.spelled T.TextForm.spelled S.Before.apart };

    fn read(
        reader: &mut Reader,
        more: bool,
        started: bool,
    ) -> Result<(Pair<S::Value, T::Value>, bool), Fault> {
        let mut ahead = *reader;
        let (first, started) = S::read(&mut ahead, true, started)?;
        let (second, started) = T::read(&mut ahead, more, started)?;
        *reader = ahead;
        Ok((Pair { first, second }, started))
    }

    fn put<W: Sink>(value: Pair<S::Value, T::Value>, out: &mut W, started: bool) -> bool {
        let started = S::put(value.first, out, started);
        T::put(value.second, out, started)
    }
}
