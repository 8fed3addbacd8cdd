// Runs of lower-case letters, digits and hyphens.
ghost use Rattle.std.specs.Prelude.{◌≡◌, ◌<◌, ◌≤◌, true, false, length, drop, MatchOption};
ghost use Rattle.std.specs.List.{prefix_len};
ghost use Rattle.calendar.specs.Text.{digit, is_date};
ghost use Rattle.items.specs.Lex.{every, run, is_word, is_number, in_run, value_of};
ghost use Rattle.items.specs.Line.{moved};

use calendar::Date;

fn runs_on(b: u8) -> bool
    ensures { result ≡ in_run b }
{
    b.is_ascii_lowercase() || b.is_ascii_digit() || b == b'-'
}

// How many bytes go on from the front.
fn run_size(rest: &[u8]) -> usize
    ensures { result ≡ prefix_len in_run rest.now }
{
    rest.iter().take_while(|b| runs_on(**b)).count()
}

// The run that begins at a place of the text: that part of the text itself. A reader, which holds both, is a layer above.
pub(crate) fn run_at<'a>(text: &'a [u8], at: usize) -> &'a [u8]
    requires { at ≤ length text.now }
    ensures bytes { result.now ≡ run (drop at text.now) }
    ensures lies { result.ref_ptr ≡ moved text.entry.ref_ptr at }
{
    let rest = &text[at..];
    &rest[..run_size(rest)]
}

pub(crate) fn is_word_run(r: &[u8]) -> bool
    ensures { result ≡ is_word r.now }
{
    (1..=8).contains(&r.len()) && r.iter().all(|b| b.is_ascii_lowercase())
}

pub(crate) fn is_number_run(r: &[u8]) -> bool
    ensures { result ≡ is_number r.now }
{
    (1..=5).contains(&r.len())
        && r.iter().all(|b| b.is_ascii_digit())
        && (r.len() == 1 || r[0] != b'0')
}

pub(crate) fn is_date_run(r: &[u8]) -> bool
    ensures { result ≡ is_date r.now }
{
    Date::read(r).is_some()
}

// The number that at most five digits write.
fn value(r: &[u8]) -> u32
    requires { (length r.now ≤ 5) × (every digit r.now ≡ true) }
    ensures { (result ≡ value_of r.now) × (result < 100000) }
{
    // A fold was tried: its closure has no bound on n, so the product is not proved to fit.
    let mut n: u32 = 0;
    for b in r {
        n = n * 10 + u32::from(*b - b'0');
    }
    n
}

// The number that a text is, if it is one.
pub fn number_in(r: &[u8]) -> Option<u32>
    ensures { MatchOption result (is_number r.now ≡ false) (λ n. (is_number r.now ≡ true) × (n ≡ value_of r.now) × (n < 100000)) }
{
    is_number_run(r).then(|| value(r))
}
