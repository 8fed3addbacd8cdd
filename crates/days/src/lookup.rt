// The day that a line names, and what is printed for it.
ghost use Rattle.std.specs.Prelude.{◌≡◌, ℕ, List, ◌++◌, OnOk};
ghost use Rattle.days.specs.Lookup.{Answers as AnswersLine, printed, Prints};

use calendar::{Date, Day};
use common::Refusal;
use items::number_in;
use std::alloc::{AllocError, Global};

// The day whose date or number the line is.
pub fn look_up(line: &[u8]) -> Result<Day, Refusal>
    ensures { AnswersLine line.now result }
{
    if Date::read(line).is_some() {
        return Day::read(line);
    }
    let number = number_in(line).ok_or(Refusal::NoItem)?;
    Day::try_from(number)
}

// Appends what is printed of an answer.
fn push_answer(
    heap: Global,
    answer: Result<Day, Refusal>,
    out: &mut Vec<u8>,
) -> Result<(), AllocError>
    ensures { OnOk result (out.new.items ≡ out.old.items ++ printed answer) }
{
    let rest = match answer {
        Ok(day) => {
            // Not by `{day}`: a format makes it on the heap, digit by digit.
            out.extend_from_slice(&day.text())?;
            format!(in heap; " {}\n", day.number)?
        }
        Err(refusal) => {
            out.extend_from_slice(b"refused")?;
            format!(in heap; " {}\n", u8::from(refusal))?
        }
    };
    // Not by `writeln!`: to a Vec of bytes it answers an `io::Error`.
    out.extend_from_slice(rest.as_bytes())
}

// Appends what is printed for a line.
pub fn report(heap: Global, line: &[u8], out: &mut Vec<u8>) -> Result<(), AllocError>
    ensures { OnOk result ((text : List ℕ) × Prints line.now text × (out.new.items ≡ out.old.items ++ text)) }
{
    push_answer(heap, look_up(line), out)
}
