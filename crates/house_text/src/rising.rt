// Rising numbers of claims in text.
ghost use Rattle.std.specs.Prelude.{◌≡◌, ℕ, ◌+◌, ◌≤◌, IfOk};
ghost use Rattle.reading.specs.Reading.{pick, numbers};
ghost use Rattle.reading.specs.Agree.{Takes};
ghost use Rattle.house_text.specs.ClaimsText.{bits_of, risen, any_rising, some_rising, claim_at, claims_from};

use super::args::put_spaced;
use house::Claims;
use parts::Sink;
use reading::{Fault, Mark, Reader, not_allowed, out_of_range};

// A claim from low on.
fn take_claim(reader: &mut Reader, low: u32) -> Result<u32, Fault>
    ensures reads { Takes reader.old reader.new 1 (λ x. x) (pick (numbers (risen low))) result }
    ensures range { IfOk result (λ n. (low ≤ n) × (n ≤ 63)) }
{
    let mut ahead = *reader;
    let n = ahead.number()?;
    // Two ranges with a fault each, and the first has one bound.
    if n > 63 {
        return Err(out_of_range(reader.at));
    }
    if n < low {
        return Err(not_allowed(reader.at));
    }
    *reader = ahead;
    Ok(n)
}

// The rising claims before a closing bracket, as a set of bits.
pub(crate) fn read_any(reader: &mut Reader) -> Result<u64, Fault>
    ensures { Takes reader.old reader.new 0 (λ x. x) any_rising result }
{
    let mut ahead = *reader;
    let mut low: u32 = 0;
    let mut set: u64 = 0;
    while !ahead.at_close() {
        ahead.mark(Mark::Space)?;
        let n = take_claim(&mut ahead, low)?;
        set += 1 << n;
        low = n + 1;
    }
    *reader = ahead;
    Ok(set)
}

// The same, with one claim at least: it refuses a closing bracket that comes first, and `read_any` does the reading.
// Not one function with a flag: `claims` has this rule and `only` the other, and each calls its own.
pub(crate) fn read_some(reader: &mut Reader) -> Result<u64, Fault>
    ensures { Takes reader.old reader.new 0 (λ x. x) some_rising result }
{
    if reader.at_close() {
        return Err(not_allowed(reader.at));
    }
    read_any(reader)
}

// A space and the number, if it is in the set.
fn put_claim<S: Sink>(out: &mut S, claims: Claims, k: u32)
    requires { S.fits out.old (claim_at (bits_of claims) k) }
    ensures { S.took out.old (claim_at (bits_of claims) k) out.new }
{
    if claims.has(k) {
        put_spaced(out, k);
    }
}

// The numbers in the set, a space before each.
pub(crate) fn put_claims<S: Sink>(out: &mut S, claims: Claims)
    requires { S.fits out.old (claims_from (bits_of claims) 0 64) }
    ensures { S.took out.old (claims_from (bits_of claims) 0 64) out.new }
{
    // Not an index: each number of the range is a claim.
    for k in 0..64 {
        if out.is_full() {
            return;
        }
        put_claim(out, claims, k);
    }
}
