// Writing a value into a caller's buffer.
ghost use Rattle.std.specs.Prelude.{false};
ghost use Rattle.parts.specs.Spelling.{as_text};
ghost use Rattle.parts.specs.Buffers.{Writes};

use super::form::TextForm;
use super::room::Room;
use super::writer::Writer;
use common::Refusal;

// Answers the length of what is written. A buffer that is too short is refused, and stays as it was.
pub fn write<T: TextForm>(value: T::Value, out: &mut [u8]) -> Result<usize, Refusal>
    ensures { Writes out.old (as_text T.TextForm.spelling false value) out.new result }
{
    let mut room = Room {
        left: Some(out.len()),
    };
    T::put(value, &mut room, false);
    if room.left.is_none() {
        return Err(Refusal::ShortBuffer);
    }
    let mut writer = Writer { out, at: 0 };
    T::put(value, &mut writer, false);
    Ok(writer.at)
}
