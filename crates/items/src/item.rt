// Items, with the place where they begin. A run is that part of the text itself.
ghost use Rattle.std.specs.Prelude.{◌≡◌, ℕ, ◌<◌, length, drop, IfSome, MatchOption};
ghost use Rattle.items.specs.Lex.{piece, piece_of_run, no_item};
ghost use Rattle.items.specs.Line.{moved};
ghost use Rattle.items.specs.Seen.{seen, place, Lies};

use super::run::{is_date_run, is_number_run, is_word_run, run_at};

#[derive(Clone, Copy, PartialEq, Eq, Debug)]
pub enum Item<'a> {
    Open(usize),
    Close(usize),
    Space(usize),
    Newline(usize),
    Word(usize, &'a [u8]),
    Number(usize, &'a [u8]),
    Date(usize, &'a [u8]),
}

// The item that begins at a place of the text, if one does. The reader, which holds both, is a layer above.
pub fn item_at<'a>(text: &'a [u8], at: usize) -> Option<Item<'a>>
    ensures lies { IfSome result (Lies text.entry.ref_ptr) }
    ensures item { MatchOption result (piece (drop at text.now) ≡ no_item) (λ i. (place i ≡ at) × (seen i ≡ piece (drop at text.now))) }
{
    if at >= text.len() {
        return None;
    }
    match text[at] {
        b'(' => Some(Item::Open(at)),
        b')' => Some(Item::Close(at)),
        b' ' => Some(Item::Space(at)),
        b'\n' => Some(Item::Newline(at)),
        _ => run_item(run_at(text, at), at),
    }
}

// The item that a run is, if it is one.
fn run_item<'a>(r: &'a [u8], at: usize) -> Option<Item<'a>>
    ensures lies { (p : ℕ × ℕ) → r.entry.ref_ptr ≡ moved p at → IfSome result (Lies p) }
    ensures item { MatchOption result (piece_of_run r.now ≡ no_item) (λ i. (place i ≡ at) × (seen i ≡ piece_of_run r.now)) }
{
    if is_word_run(r) {
        return Some(Item::Word(at, r));
    }
    if is_number_run(r) {
        return Some(Item::Number(at, r));
    }
    if is_date_run(r) {
        return Some(Item::Date(at, r));
    }
    None
}
