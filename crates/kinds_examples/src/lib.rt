// Worked examples of the label kinds. Each is proved to be safe, and then run.
#![tactic(auto)]

#[cfg(test)]
mod tests {
    use calendar::Day;
    use common::Refusal;
    use house::{
        Ceiling, Claims, Expiry, ExpiryPassage, ExpiryPassageRow, House, Lock, LockPassage, Span,
        YearCount,
    };
    use kinds::{LabelKind, Pair};
    use std::test::Fail;

    #[test]
    fn cap_takes_the_earlier(rt: HostRuntime) {
        let cap = ExpiryPassage::cap(Day { number: 50 });
        let late = Expiry { number: 100 }.carry(cap);
        let early = Expiry { number: 49 }.carry(cap);
        assert_eq!(rt;
            [late.number, early.number, Expiry::empty().carry(cap).number],
            [50, 49, 0]
        );
    }

    #[test]
    fn add_stops_at_the_last_day(rt: HostRuntime) {
        let add = ExpiryPassage::Add(Span { count: 30 });
        let early = Expiry { number: 1 }.carry(add);
        let edge = Expiry { number: 83975 }.carry(add);
        let late = Expiry { number: 84000 }.carry(add);
        assert_eq!(rt;
            [
                early.number,
                edge.number,
                late.number,
                Expiry::empty().carry(add).number,
            ],
            [31, 84005, 84005, 0]
        );
    }

    #[test]
    fn a_year_has_365_days(rt: HostRuntime) {
        let century = ExpiryPassage::Years(YearCount { count: 100 });
        let early = Expiry { number: 1 }.carry(century);
        let late = Expiry { number: 47506 }.carry(century);
        assert_eq!(rt;
            [
                early.number,
                late.number,
                Expiry::empty().carry(century).number,
            ],
            [36501, 84005, 0]
        );
    }

    #[test]
    fn most_takes_the_lower(rt: HostRuntime) {
        let most = LockPassage::Most(Ceiling { level: 1 });
        let lock = Lock { level: 3 };
        assert_eq!(rt;
            [
                lock.carry(most).level,
                Lock::empty().carry(most).level,
                lock.carry(LockPassage::Pass).level,
            ],
            [1, 0, 3]
        );
    }

    #[test]
    fn claims_outside_the_passage_stop(rt: HostRuntime) -> Result<(), Fail> {
        let claims = Claims::none().with(7)?.with(63)?;
        let passed = claims.carry(Claims::none().with(7)?);
        let joined = claims.join(Claims::from_row(1));
        assert_eq!(rt;
            [claims.has(7), claims.has(63), claims.has(0)],
            [true, true, false]
        );
        assert_eq!(rt;
            [passed.has(7), passed.has(63), passed.has(0)],
            [true, false, false]
        );
        assert_eq!(rt;
            [joined.has(7), joined.has(63), joined.has(0)],
            [true, true, true]
        );
        Ok(())
    }

    #[test]
    fn a_house_label_goes_over_a_link(rt: HostRuntime) {
        let label: House = Pair {
            first: Expiry { number: 100 },
            second: Pair {
                first: Claims::all(),
                second: Lock { level: 2 },
            },
        };
        let passed = label.carry(Pair {
            first: ExpiryPassage::Add(Span { count: 30 }),
            second: Pair {
                first: Claims::none(),
                second: LockPassage::Most(Ceiling { level: 1 }),
            },
        });
        let before = Day { number: 130 };
        let after = Day { number: 131 };
        assert_eq!(rt;
            [
                label.is_free(after),
                passed.is_free(before),
                passed.is_free(after),
            ],
            [false, false, true]
        );
        let joined = passed.join(label);
        assert_eq!(rt; [joined.first.number, passed.first.number], [130, 130]);
        assert_eq!(rt;
            [joined.second.second.level, passed.second.second.level],
            [2, 1]
        );
        assert_eq!(rt; House::from_row(label.to_row()), label);
    }

    #[test]
    fn a_row_outside_the_range_is_read_as_the_nearest(rt: HostRuntime) {
        let nothing = Expiry::passage_from_row(ExpiryPassageRow::Add(0));
        assert_eq!(rt; Expiry { number: 1 }.carry(nothing).number, 2);
        assert_eq!(rt; Lock::from_row(9).level, 3);
    }

    #[test]
    fn numbers_out_of_range_are_refused(rt: HostRuntime) {
        let expiries = [Expiry::try_from(84005).err(), Expiry::try_from(84006).err()];
        let spans = [
            ExpiryPassage::add(36500).err(),
            ExpiryPassage::add(36501).err(),
        ];
        let shortest = [ExpiryPassage::add(1).err(), ExpiryPassage::add(0).err()];
        let years = [
            ExpiryPassage::years(100).err(),
            ExpiryPassage::years(101).err(),
        ];
        let claims = [Claims::none().with(63).err(), Claims::none().with(64).err()];
        let locks = [Lock::try_from(3).err(), Lock::try_from(4).err()];
        let ceilings = [LockPassage::most(2).err(), LockPassage::most(3).err()];
        let expected = [None, Some(Refusal::OutOfRange)];
        assert_eq!(rt;
            [expiries, spans, shortest, years, claims, locks, ceilings],
            [expected; 7]
        );
    }
}
