// Worked examples of tables that are lent call by call, by columns and by owned tables. Each is proved to be safe, and then run.
#![tactic(auto)]

#[cfg(test)]
mod tests {
    use common::{PlaceNumber, Rank, Refusal};
    use discarding::discard_in;
    use editing::{link_in, own_in, unlink_in};
    use house::{Expiry, ExpiryPassage, ExpiryPassageRow};
    use kinds::LabelKind;
    use links::{Heads, LinkRow, Slot, count, find};
    use owned::OwnedTables;
    use std::alloc::{AllocError, Global};
    use std::test::Fail;
    use tables::{Columns, Tables, clear};

    const PLACES: usize = 3;

    const LINKS: usize = 2;

    type Owned = OwnedTables<u32, ExpiryPassageRow>;

    type Lent<'a> = Columns<'a, u32, ExpiryPassageRow>;

    // Tables that hold anything.
    fn memory(heap: Global) -> Result<Tables<u32, ExpiryPassageRow>, AllocError> {
        let heads = Heads {
            leaving: Slot(7),
            entering: Slot(7),
        };
        let row = LinkRow::Unused {
            under: 7,
            below: Slot(7),
        };
        Ok(Tables {
            present: vec![in heap; true; PLACES]?,
            own: vec![in heap; 7; PLACES]?,
            labels: vec![in heap; 7; PLACES]?,
            ranks: vec![in heap; Rank::new(7); PLACES]?,
            order: vec![in heap; PlaceNumber::new(7); PLACES]?,
            heads: vec![in heap; heads; PLACES]?,
            links: vec![in heap; row; LINKS]?,
            marks: vec![in heap; 7; PLACES]?,
        })
    }

    // Clears lent tables, if they have room.
    fn cleared(columns: &mut Lent<'_>) -> Result<(), Refusal> {
        columns.tables.check(PLACES, LINKS)?;
        clear::<Expiry>(columns, PLACES, LINKS);
        Ok(())
    }

    // Links u to v, where the columns have both and room for a link, and there is none yet.
    fn linked(
        columns: &mut Lent<'_>,
        u: PlaceNumber,
        v: PlaceNumber,
        list: &mut [PlaceNumber],
    ) -> Option<Result<(usize, usize), Refusal>> {
        let n = columns.places;
        if u.index() >= n || v.index() >= n || list.len() < n || columns.is_linked(u, v) {
            return None;
        }
        if columns.count() >= columns.tables.links.len() {
            return None;
        }
        Some(link_in::<Expiry>(columns, u, v, ExpiryPassageRow::Pass, list))
    }

    // Holds p until the day with this number.
    fn held(
        columns: &mut Lent<'_>,
        p: PlaceNumber,
        day: u32,
        list: &mut [PlaceNumber],
    ) -> Option<(usize, usize)> {
        if p.index() >= columns.places || list.len() < columns.places {
            return None;
        }
        let label = Expiry::from_row(day);
        Some(own_in::<Expiry>(columns, p, label, list))
    }

    // Takes the link from u to v out.
    fn unlinked(
        columns: &mut Lent<'_>,
        u: PlaceNumber,
        v: PlaceNumber,
        list: &mut [PlaceNumber],
    ) -> Option<(usize, usize)> {
        let n = columns.places;
        if u.index() >= n || v.index() >= n || list.len() < n {
            return None;
        }
        Some(unlink_in::<Expiry>(columns, u, v, list))
    }

    // Takes p out, if it is there: all links into it, its labels, its presence.
    fn discarded(columns: &mut Lent<'_>, p: PlaceNumber) -> bool {
        let is_there = p.index() < columns.places;
        if is_there {
            discard_in::<Expiry>(columns, p);
        }
        is_there
    }

    // Takes the link from u to v out, with the labels as they are.
    fn cut(columns: &mut Lent<'_>, u: PlaceNumber, v: PlaceNumber) -> Option<usize> {
        if u.index() >= columns.places {
            return None;
        }
        columns.unlink(u, v);
        Some(columns.count())
    }

    // Takes all links into p out, with the labels as they are.
    fn shut(columns: &mut Lent<'_>, p: PlaceNumber) -> Option<usize> {
        if p.index() >= columns.places {
            return None;
        }
        columns.unlink_entering(p);
        Some(columns.count())
    }

    // Links u to v, with the labels as they are.
    fn tied(columns: &mut Lent<'_>, u: PlaceNumber, v: PlaceNumber) -> Option<Result<(), Refusal>> {
        let n = columns.places;
        if u.index() >= n || v.index() >= n || columns.is_linked(u, v) {
            return None;
        }
        if columns.count() >= columns.tables.links.len() {
            return None;
        }
        Some(columns.link(u, v, ExpiryPassageRow::Pass))
    }

    // Brings p, and says whether a link leaves it.
    fn brought(columns: &mut Lent<'_>, p: PlaceNumber) -> Option<bool> {
        if p.index() >= columns.places {
            return None;
        }
        columns.bring(p);
        Some(columns.has_leaving(p))
    }

    // What columns did stands in the tables when their loan is over.
    #[test]
    fn tables_keep_what_columns_did(rt: HostRuntime) -> Result<(), Fail> {
        let [a, b, c] = [
            PlaceNumber::new(0),
            PlaceNumber::new(1),
            PlaceNumber::new(2),
        ];
        let mut list = [a; PLACES];
        let mut tables = memory(rt.alloc())?;
        let mut columns = Columns::new(&mut tables);
        assert_eq!(rt; cleared(&mut columns), Ok(()));
        assert_eq!(rt; brought(&mut columns, b), Some(false));
        assert_eq!(rt; linked(&mut columns, a, b, &mut list), Some(Ok((1, 0))));
        assert_eq!(rt; linked(&mut columns, b, c, &mut list), Some(Ok((1, 0))));
        assert_eq!(rt; linked(&mut columns, c, a, &mut list), None);
        assert_eq!(rt; held(&mut columns, a, 50, &mut list), Some((3, 3)));
        assert_eq!(rt; brought(&mut columns, c), Some(false));
        assert_eq!(rt; discarded(&mut columns, c), true);
        assert_eq!(rt; brought(&mut columns, b), Some(false));
        assert_eq!(rt; unlinked(&mut columns, a, b, &mut list), Some((1, 1)));
        assert_eq!(rt; tables.own.as_slice(), [50, 0, 0].as_slice());
        assert_eq!(rt; tables.labels.as_slice(), [50, 0, 0].as_slice());
        assert_eq!(rt; tables.present.as_slice(), [false, true, false].as_slice());
        Ok(())
    }

    #[test]
    fn columns_are_linked(rt: HostRuntime) -> Result<(), Fail> {
        let [a, b, c] = [
            PlaceNumber::new(0),
            PlaceNumber::new(1),
            PlaceNumber::new(2),
        ];
        let mut tables = memory(rt.alloc())?;
        let mut columns = Columns::new(&mut tables);
        assert_eq!(rt; cleared(&mut columns), Ok(()));
        assert_eq!(rt; tied(&mut columns, c, a), Some(Ok(())));
        assert_eq!(rt; tied(&mut columns, a, c), Some(Err(Refusal::Circle)));
        assert_eq!(rt; tied(&mut columns, a, b), Some(Ok(())));
        assert_eq!(rt; brought(&mut columns, c), Some(true));
        assert_eq!(rt; cut(&mut columns, c, a), Some(1));
        assert_eq!(rt; shut(&mut columns, b), Some(0));
        assert_eq!(rt; brought(&mut columns, c), Some(false));
        let order = [c, a, b];
        assert_eq!(rt; tables.order.as_slice(), order.as_slice());
        Ok(())
    }

    // Owned tables cleared for three places.
    fn owned(heap: Global) -> Result<Option<Owned>, AllocError> {
        let Tables {
            present,
            own,
            labels,
            ranks,
            order,
            heads,
            links,
            marks,
        } = memory(heap)?;
        let mut t = OwnedTables::new(present, own, labels, ranks, order, heads, links, marks);
        if t.check(PLACES, LINKS).is_err() {
            return Ok(None);
        }
        owned::clear::<Expiry>(&mut t, PLACES, LINKS);
        Ok(Some(t))
    }

    // Links u to v, where the tables have both and room for a link, and there is none yet.
    fn link(
        t: &mut Owned,
        u: PlaceNumber,
        v: PlaceNumber,
        list: &mut [PlaceNumber],
    ) -> Option<Result<(usize, usize), Refusal>> {
        let n = t.places;
        if u.index() >= n || v.index() >= n || list.len() < n {
            return None;
        }
        let rows = t.tables.links.as_slice();
        let heads = t.tables.heads.as_slice();
        if count(rows, heads, t.tally) >= rows.len() {
            return None;
        }
        let None = find(rows, heads, t.tally, u, v) else {
            return None;
        };
        Some(owned::link_in::<Expiry>(t, u, v, ExpiryPassageRow::Pass, list))
    }

    #[test]
    fn owned_tables_are_edited(rt: HostRuntime) -> Result<(), Fail> {
        let [a, b, c] = [
            PlaceNumber::new(0),
            PlaceNumber::new(1),
            PlaceNumber::new(2),
        ];
        let mut list = [a; PLACES];
        let made = owned(rt.alloc())?;
        assert_eq!(rt; made.is_some(), true);
        let Some(mut t) = made else {
            return Ok(());
        };
        assert_eq!(rt; link(&mut t, a, b, &mut list), Some(Ok((1, 0))));
        assert_eq!(rt; link(&mut t, a, b, &mut list), None);
        assert_eq!(rt; link(&mut t, b, a, &mut list), Some(Err(Refusal::Circle)));
        assert_eq!(rt; link(&mut t, b, c, &mut list), Some(Ok((1, 0))));
        if c.index() < t.places && list.len() >= t.places {
            t.bring(c);
            let label = Expiry::from_row(50);
            assert_eq!(rt;
                owned::own_in::<Expiry>(&mut t, a, label, &mut list),
                (3, 3)
            );
        }
        assert_eq!(rt; t.tables.labels.as_slice(), [50, 50, 50].as_slice());
        assert_eq!(rt;
            t.tables.present.as_slice(),
            [false, false, true].as_slice()
        );
        if c.index() < t.places && list.len() >= t.places {
            assert_eq!(rt; owned::unlink_in::<Expiry>(&mut t, a, b, &mut list), (2, 2));
        }
        if c.index() < t.places {
            owned::discard_in::<Expiry>(&mut t, c);
        }
        assert_eq!(rt; t.tables.own.as_slice(), [50, 0, 0].as_slice());
        assert_eq!(rt; t.tables.labels.as_slice(), [50, 0, 0].as_slice());
        assert_eq!(rt;
            t.tables.present.as_slice(),
            [false, false, false].as_slice()
        );
        Ok(())
    }
}
