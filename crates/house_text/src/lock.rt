// Locks and their passages in text.
ghost use Rattle.house_text.specs.LockText.{lock_part, most_part};
ghost use Rattle.house_text.specs.LockBack.{lock_whole, most_whole};

use super::args::{put_level, take_level};
use house::{Lock, LockPassage};
use kinds::LabelKind;
use parts::{PartText, Sink};
use reading::{Fault, Reader};

// `(lock R)`
pub struct LockText;

// `(most S)`. Beside the lock it differs in value, range and what has no part, so a form of both would only pass these on.
pub struct MostText;

impl PartText for LockText {
    type Value = Lock;

    ghost part = { lock_part };

    ghost whole = { lock_whole };

    fn is_word(word: &[u8]) -> bool {
        word == b"lock".as_slice()
    }

    fn none() -> Lock {
        Lock::from_row(0)
    }

    fn is_none(value: Lock) -> bool {
        value.level == 0
    }

    fn read_args(reader: &mut Reader, _word: &[u8]) -> Result<Lock, Fault> {
        take_level::<1, 3>(reader)
    }

    fn put_inside<S: Sink>(value: Lock, out: &mut S) {
        put_level(out, b"lock", value.level);
    }
}

impl PartText for MostText {
    type Value = LockPassage;

    ghost part = { most_part };

    ghost whole = { most_whole };

    fn is_word(word: &[u8]) -> bool {
        word == b"most".as_slice()
    }

    fn none() -> LockPassage {
        LockPassage::Pass
    }

    fn is_none(value: LockPassage) -> bool {
        matches!(value, LockPassage::Pass)
    }

    fn read_args(reader: &mut Reader, _word: &[u8]) -> Result<LockPassage, Fault> {
        Ok(LockPassage::Most(take_level::<0, 2>(reader)?))
    }

    fn put_inside<S: Sink>(value: LockPassage, out: &mut S) {
        match value {
            LockPassage::Pass => (),
            LockPassage::Most(ceiling) => put_level(out, b"most", ceiling.level),
        }
    }
}
