// Numbers in decimals.
ghost use Rattle.std.specs.Prelude.{decimal};

use super::sink::Sink;

// The digits before the last one, and then that one: a loop would need a buffer for the digits, which come last first.
pub fn put_number<S: Sink>(out: &mut S, n: u32)
    requires { S.fits out.old (decimal n) }
    ensures { S.took out.old (decimal n) out.new }
{
    let digit = [b'0' + (n % 10) as u8];
    if n < 10 {
        out.put(&digit);
    } else {
        put_number(out, n / 10);
        out.put(&digit);
    }
}
