// What is wrong with a text, and where.
ghost use Rattle.std.specs.Prelude.{◌≡◌};
ghost use Rattle.reading.specs.Reading.{no_item_fault, range_fault, form_fault, end_fault};
ghost use Rattle.reading.specs.Agree.{fault_of};

use common::Refusal;

// Which part of the rules a fault breaks.
#[derive(Clone, Copy, PartialEq, Eq, Debug)]
pub enum Layer {
    Byte,
    Value,
    Form,
    Store,
}

// The byte is counted from 0.
#[derive(Clone, Copy, PartialEq, Eq, Debug)]
pub struct Fault {
    pub layer: Layer,
    pub refusal: Refusal,
    pub at: usize,
}

// Four names for four rules: one function over layer and refusal would let a caller pair them wrongly.
// A byte or a run that is no item.
pub(crate) fn no_item(at: usize) -> Fault
    ensures { result ≡ fault_of no_item_fault at }
{
    Fault {
        layer: Layer::Byte,
        refusal: Refusal::NoItem,
        at,
    }
}

// An allowed item outside its range.
pub fn out_of_range(at: usize) -> Fault
    ensures { result ≡ fault_of range_fault at }
{
    Fault {
        layer: Layer::Value,
        refusal: Refusal::OutOfRange,
        at,
    }
}

// An item that is not allowed there.
pub fn not_allowed(at: usize) -> Fault
    ensures { result ≡ fault_of form_fault at }
{
    Fault {
        layer: Layer::Form,
        refusal: Refusal::NotAllowed,
        at,
    }
}

// The text ends inside a line.
pub(crate) fn unfinished(at: usize) -> Fault
    ensures { result ≡ fault_of end_fault at }
{
    Fault {
        layer: Layer::Form,
        refusal: Refusal::Unfinished,
        at,
    }
}
