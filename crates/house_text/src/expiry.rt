// Expiries and their passages in text.
ghost use Rattle.house_text.specs.ExpiryText.{until_part, step_part};
ghost use Rattle.house_text.specs.ExpiryBack.{until_whole, step_whole};

use super::args::{put_count, put_day, take_count};
use house::{Expiry, ExpiryPassage};
use kinds::LabelKind;
use parts::{PartText, Sink};
use reading::{Fault, Reader};

// `(until DATE)`
pub struct UntilText;

// `(cap DATE)`, `(add N)` or `(years N)`. Beside the expiry it differs in words, values and what has no part, so a form of both would only
// pass these on.
pub struct StepText;

impl PartText for UntilText {
    type Value = Expiry;

    ghost part = { until_part };

    ghost whole = { until_whole };

    fn is_word(word: &[u8]) -> bool {
        word == b"until".as_slice()
    }

    fn none() -> Expiry {
        Expiry::from_row(0)
    }

    fn is_none(value: Expiry) -> bool {
        value.number == 0
    }

    fn read_args(reader: &mut Reader, _word: &[u8]) -> Result<Expiry, Fault> {
        Ok(Expiry::from_row(reader.spaced_day()?.number))
    }

    fn put_inside<S: Sink>(value: Expiry, out: &mut S) {
        match value.day() {
            Some(day) => put_day(out, b"until", day),
            // The empty expiry has no day: its text is that of the number 0.
            None => out.put(b"until 1970-01-01"),
        }
    }
}

impl PartText for StepText {
    type Value = ExpiryPassage;

    ghost part = { step_part };

    ghost whole = { step_whole };

    fn is_word(word: &[u8]) -> bool {
        matches!(word, b"cap" | b"add" | b"years")
    }

    fn none() -> ExpiryPassage {
        ExpiryPassage::Pass
    }

    fn is_none(value: ExpiryPassage) -> bool {
        matches!(value, ExpiryPassage::Pass)
    }

    fn read_args(reader: &mut Reader, word: &[u8]) -> Result<ExpiryPassage, Fault> {
        match word {
            b"cap" => Ok(ExpiryPassage::Cap(reader.spaced_day()?)),
            b"add" => Ok(ExpiryPassage::Add(take_count(reader)?)),
            _ => Ok(ExpiryPassage::Years(take_count(reader)?)),
        }
    }

    fn put_inside<S: Sink>(value: ExpiryPassage, out: &mut S) {
        match value {
            ExpiryPassage::Pass => (),
            ExpiryPassage::Cap(day) => put_day(out, b"cap", day),
            ExpiryPassage::Add(span) => put_count(out, b"add", span.count),
            ExpiryPassage::Years(years) => put_count(out, b"years", years.count),
        }
    }
}
