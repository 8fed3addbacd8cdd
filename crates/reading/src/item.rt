// Readers of single items.
ghost use Rattle.std.specs.Prelude.{◌≡◌, ℕ, ◌+◌};
ghost use Rattle.items.specs.Seen.{seen};
ghost use Rattle.reading.specs.Reading.{size, item, pick, ends};
ghost use Rattle.reading.specs.Agree.{Takes, rest};
ghost use Rattle.reading.specs.Marks.{marked, is_marked};

use super::fault::{Fault, no_item, not_allowed, unfinished};
use super::reader::Reader;
use items::{Item, item_at};

// An item that is always the same byte.
#[derive(Clone, Copy, PartialEq, Eq, Debug)]
pub enum Mark {
    Open,
    Close,
    Space,
    Newline,
}

fn item_size(item: &Item) -> usize
    ensures { result ≡ size (seen item.now) }
{
    match item {
        Item::Word(_, run) | Item::Number(_, run) | Item::Date(_, run) => run.len(),
        _ => 1,
    }
}

fn is_mark(item: &Item, mark: Mark) -> bool
    ensures { result ≡ is_marked mark (seen item.now) }
{
    matches!(
        (mark, item),
        (Mark::Open, Item::Open(_))
            | (Mark::Close, Item::Close(_))
            | (Mark::Space, Item::Space(_))
            | (Mark::Newline, Item::Newline(_))
    )
}

impl<'a> Reader<'a> {
    // The next item, whichever it is.
    pub fn item(&mut self) -> Result<Item<'a>, Fault>
        ensures { Takes self.old self.new 1 seen item result }
    {
        let at = self.at;
        if at >= self.text.len() {
            return Err(unfinished(at));
        }
        let item = item_at(self.text, at).ok_or(no_item(at))?;
        self.at = at + item_size(&item);
        Ok(item)
    }

    pub fn mark(&mut self, mark: Mark) -> Result<(), Fault>
        ensures { Takes self.old self.new 1 (λ x. x) (pick (marked mark)) result }
    {
        let mut ahead = *self;
        let item = ahead.item()?;
        if !is_mark(&item, mark) {
            return Err(not_allowed(self.at));
        }
        *self = ahead;
        Ok(())
    }

    // Whether the next item is a closing bracket.
    pub fn at_close(self) -> bool
        ensures { result ≡ ends (item (rest self.entry)) }
    {
        let mut ahead = self;
        matches!(ahead.item(), Ok(Item::Close(_)))
    }
}
