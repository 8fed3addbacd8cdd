// What follows the word of a part: numbers and dates, a space before each.
ghost use Rattle.std.specs.Prelude.{◌+◌, ◌≤◌, [], ◌∷◌, ◌++◌, decimal};
ghost use Rattle.calendar.specs.Text.{day_text};
ghost use Rattle.reading.specs.Agree.{Takes};
ghost use Rattle.house_text.specs.ExpiryText.{counted};

use calendar::Day;
use house::{Count, Level};
use parts::{Sink, put_number};
use reading::{Fault, Mark, Reader};

// A space and a number from 1 to MOST.
pub(crate) fn take_count<const MOST: u32>(reader: &mut Reader) -> Result<Count<MOST>, Fault>
    ensures { Takes reader.old reader.new 1 (λ c. c.count) (counted 1 MOST) result }
{
    let mut ahead = *reader;
    ahead.mark(Mark::Space)?;
    let count = ahead.number_from(1, MOST)?;
    *reader = ahead;
    Ok(Count { count })
}

// A space and a level from LOW to TOP.
pub(crate) fn take_level<const LOW: u8, const TOP: u8>(
    reader: &mut Reader,
) -> Result<Level<TOP>, Fault>
    ensures { Takes reader.old reader.new 1 (λ l. l.level) (counted LOW TOP) result }
{
    let mut ahead = *reader;
    ahead.mark(Mark::Space)?;
    let level = ahead.number_from(u32::from(LOW), u32::from(TOP))?;
    *reader = ahead;
    Ok(Level { level: level as u8 })
}

// A space and the number.
pub(crate) fn put_spaced<S: Sink>(out: &mut S, n: u32)
    requires { S.fits out.old (32 ∷ decimal n) }
    ensures { S.took out.old (32 ∷ decimal n) out.new }
{
    out.put(b" ");
    put_number(out, n);
}

pub(crate) fn put_count<S: Sink>(out: &mut S, word: &[u8], n: u32)
    requires { S.fits out.old (word.now ++ (32 ∷ decimal n)) }
    ensures { S.took out.old (word.now ++ (32 ∷ decimal n)) out.new }
{
    out.put(word);
    put_spaced(out, n);
}

// A level is one digit. Numbers, levels and dates are put apart, since each has a text of its own.
pub(crate) fn put_level<S: Sink>(out: &mut S, word: &[u8], level: u8)
    requires digit { level ≤ 9 }
    requires fits { S.fits out.old (word.now ++ (32 ∷ (48 + level) ∷ [])) }
    ensures { S.took out.old (word.now ++ (32 ∷ (48 + level) ∷ [])) out.new }
{
    out.put(word);
    out.put(&[b' ', b'0' + level]);
}

// A space and the day's date.
fn put_date<S: Sink>(out: &mut S, day: Day)
    requires { S.fits out.old (32 ∷ day_text day.number) }
    ensures { S.took out.old (32 ∷ day_text day.number) out.new }
{
    out.put(b" ");
    // A sink that only measures needs no text of the date.
    if !out.skip(10) {
        out.put(&day.text());
    }
}

pub(crate) fn put_day<S: Sink>(out: &mut S, word: &[u8], day: Day)
    requires { S.fits out.old (word.now ++ (32 ∷ day_text day.number)) }
    ensures { S.took out.old (word.now ++ (32 ∷ day_text day.number)) out.new }
{
    out.put(word);
    put_date(out, day);
}
