// The line of a text that has a byte. Text and place are parameters: a reader, which holds both, is a layer above.
ghost use Rattle.std.specs.Prelude.{◌≡◌, ℕ, ◌+◌, ◌-◌, ◌<◌, ◌≤◌, ◌==◌, min, length, slice_index};
ghost use Rattle.std.specs.List.{between, position_or_len};
ghost use Rattle.items.specs.Line.{NoBreak, Line, moved};

// The place after the last newline.
fn after_break(front: &[u8]) -> usize
    ensures within { result ≤ length front.now }
    ensures unbroken { NoBreak front.now result (length front.now) }
    ensures starts { 0 < result → slice_index front.now (result - 1) ≡ 10 }
{
    front.iter().rposition(|b| *b == b'\n').map_or(0, |i| i + 1)
}

// Where the line that has the place begins.
fn line_start(text: &[u8], at: usize) -> usize
    requires { at ≤ length text.now }
    ensures before { result ≤ at }
    ensures unbroken { NoBreak text.now result at }
    ensures starts { 0 < result → slice_index text.now (result - 1) ≡ 10 }
{
    after_break(&text[..at])
}

// How many bytes stand before the first newline.
pub fn before_break(rest: &[u8]) -> usize
    ensures value { result ≡ position_or_len (λ b. b == 10) rest.now }
    ensures within { result ≤ length rest.now }
    ensures unbroken { NoBreak rest.now 0 result }
    ensures ends { result < length rest.now → slice_index rest.now result ≡ 10 }
{
    rest.iter().take_while(|b| **b != b'\n').count()
}

// Where the line that has the place ends.
fn line_end(text: &[u8], at: usize) -> usize
    requires { at ≤ length text.now }
    ensures after { at ≤ result }
    ensures within { result ≤ length text.now }
    ensures unbroken { NoBreak text.now at result }
    ensures ends { result < length text.now → slice_index text.now result ≡ 10 }
{
    at + before_break(&text[at..])
}

// The line around a byte, without its newline: that part of the text itself. A byte beyond the text counts as its length.
pub fn line_at<'a>(text: &'a [u8], at: usize) -> &'a [u8]
    ensures { (a : ℕ) × (b : ℕ) × Line text.now (min at (length text.now)) a b × (result.now ≡ between a b text.now) × (result.ref_ptr ≡ moved text.entry.ref_ptr a) }
{
    let i = at.min(text.len());
    let from = line_start(text, i);
    let to = line_end(text, i);
    &text[from..to]
}
