// A store of four places with a diamond of links: 0 to 1 and to 2, and both to 3. Prints what each edit answers and the labels after it.
#![tactic(auto)]

use calendar::Day;
use common::{PlaceNumber, Rank, Refusal};
use house::{Expiry, ExpiryPassage, ExpiryPassageRow};
use links::{Heads, LinkRow, Slot};
use std::alloc::{AllocError, Global};
use std::io;
use store::Store;
use tables::Tables;

const PLACES: usize = 4;

const LINKS: usize = 4;

// Tables for the store.
fn lent(heap: Global) -> Result<Tables<u32, ExpiryPassageRow>, AllocError> {
    let slot = Slot(0);
    let heads = Heads {
        leaving: slot,
        entering: slot,
    };
    let row = LinkRow::Unused {
        under: 0,
        below: slot,
    };
    Ok(Tables {
        present: vec![in heap; false; PLACES]?,
        own: vec![in heap; 0; PLACES]?,
        labels: vec![in heap; 0; PLACES]?,
        ranks: vec![in heap; Rank::new(0); PLACES]?,
        order: vec![in heap; PlaceNumber::new(0); PLACES]?,
        heads: vec![in heap; heads; PLACES]?,
        links: vec![in heap; row; LINKS]?,
        marks: vec![in heap; 0; PLACES]?,
    })
}

// Prints what an edit answered.
fn say(rt: &impl Print, what: &str, answer: Result<(usize, usize), Refusal>) -> io::Result<()> {
    match answer {
        Ok((reported, changed)) => println!(rt; "{what}: {reported} reported, {changed} changed"),
        Err(refusal) => {
            let number = u8::from(refusal);
            println!(rt; "{what}: refused with {number}")
        }
    }
}

// Prints the day until which a place is held.
fn show(rt: &impl Print, store: &Store<'_, Expiry>, place: u32) -> io::Result<()> {
    match store.label(PlaceNumber::new(place)) {
        Ok(label) => {
            let day = label.number;
            println!(rt; "  place {place} is held until day {day}")
        }
        Err(refusal) => {
            let number = u8::from(refusal);
            println!(rt; "  place {place}: refused with {number}")
        }
    }
}

fn main(rt: HostRuntime) -> io::Result<()> {
    let mut tables = lent(rt.alloc())?;
    let mut store: Store<'_, Expiry> = Store::new(&mut tables, PLACES, LINKS);
    let mut list = [PlaceNumber::new(0); PLACES];
    let pass = ExpiryPassage::Pass;
    let [a, b, c, d] = [
        PlaceNumber::new(0),
        PlaceNumber::new(1),
        PlaceNumber::new(2),
        PlaceNumber::new(3),
    ];
    for place in [a, b, c, d] {
        let _ = store.bring(place);
    }
    say(&rt, "link 0 1", store.link(a, b, pass, &mut list))?;
    say(&rt, "link 0 2", store.link(a, c, pass, &mut list))?;
    let fifty = Day { number: 50 };
    say(
        &rt,
        "link 1 3, capped by day 50",
        store.link(b, d, ExpiryPassage::cap(fifty), &mut list),
    )?;
    say(&rt, "link 2 3", store.link(c, d, pass, &mut list))?;
    let hundred = Day { number: 100 };
    say(
        &rt,
        "own 0 until day 100",
        store.own(a, Expiry::until(hundred), &mut list),
    )?;
    show(&rt, &store, 3)?;
    say(&rt, "unlink 2 3", store.unlink(c, d, &mut list))?;
    show(&rt, &store, 3)?;
    say(&rt, "link 3 0", store.link(d, a, pass, &mut list))?;
    say(&rt, "link 1 1", store.link(b, b, pass, &mut list))?;
    show(&rt, &store, 9)
}

#[cfg(test)]
mod tests {
    use crate::{LINKS, PLACES, lent};
    use common::PlaceNumber;
    use house::{Expiry, ExpiryPassage};
    use std::test::Fail;
    use store::Store;

    // A store's last use ends its loan: the tables are the caller's then, and can be lent anew.
    #[test]
    fn tables_are_lent_anew(rt: HostRuntime) -> Result<(), Fail> {
        let mut tables = lent(rt.alloc())?;
        let [first, second] = [PlaceNumber::new(0), PlaceNumber::new(1)];
        let mut list = [first; PLACES];
        let mut store: Store<'_, Expiry> = Store::new(&mut tables, PLACES, LINKS);
        assert_eq!(rt; (store.bring(first), store.bring(second)), (Ok(()), Ok(())));
        let pass = ExpiryPassage::Pass;
        assert_eq!(rt; store.link(first, second, pass, &mut list), Ok((1, 0)));
        let label = Expiry { number: 50 };
        assert_eq!(rt; store.own(first, label, &mut list), Ok((2, 2)));
        assert_eq!(rt; tables.present.get(1).copied(), Some(true));
        assert_eq!(rt; tables.own.get(1).copied(), Some(0));
        assert_eq!(rt; tables.labels.get(1).copied(), Some(50));
        if let Some(mark) = tables.marks.last_mut() {
            *mark = 7;
        }
        let mut again: Store<'_, Expiry> = Store::new(&mut tables, PLACES - 1, LINKS);
        assert_eq!(rt; again.made(), Ok(()));
        assert_eq!(rt; again.bring(second), Ok(()));
        assert_eq!(rt; tables.labels.get(1).copied(), Some(0));
        assert_eq!(rt; tables.marks.last().copied(), Some(7));
        Ok(())
    }
}
