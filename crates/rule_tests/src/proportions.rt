use crate::proportional::Proportional;
use layers::penalty::Penalty;
use layers::waiver::Waiver;
use std::test::Fail;
use tariff::query::Query;
use tariff::tariff::Tariff;
use units::bits::BitSet;
use units::limits::{BLOCKS, STATION_KW};

/// A million kW above the schedule, at half the largest capacity.
const QUERY: Query = Query {
    station: 2,
    block: 5,
    schedule: 0,
    actual: 1_000_000,
    capacity: STATION_KW / 2,
};

/// The same at a capacity that no station has.
const OUTSIDE: Query = Query {
    capacity: u32::MAX,
    ..QUERY
};

#[test]
fn charge_in_proportion_to_the_capacity(rt: HostRuntime) -> Result<(), Fail> {
    assert_eq!(rt; Proportional.charge(QUERY), 500_000);
    let shortfall = Query {
        schedule: STATION_KW,
        actual: 0,
        capacity: STATION_KW,
        ..QUERY
    };
    assert_eq!(rt; Proportional.charge(shortfall), 6_400_000);
    let rounded_down = Query {
        schedule: 1_000_000,
        actual: 1_000_007,
        capacity: STATION_KW - 1,
        ..QUERY
    };
    assert_eq!(rt; Proportional.charge(rounded_down), 6);
    assert_eq!(rt; Proportional.charge(OUTSIDE), 671_088_639);
    assert_eq!(rt; Proportional.ceiling(), 1);
    assert_eq!(rt; Proportional.code(), 50);
    Ok(())
}

#[test]
fn waiver_over_penalty_over_proportion(rt: HostRuntime) -> Result<(), Fail> {
    let mut due = [None; BLOCKS];
    due[5] = Some(STATION_KW);
    due[6] = Some(STATION_KW);
    let mut disturbed = BitSet::new();
    disturbed.insert(6);
    let tariff = Waiver::new(Penalty::new(Proportional, 2, due)?, disturbed);
    assert_eq!(rt; tariff.charge(QUERY), 3_000_000);
    assert_eq!(rt; tariff.charge(Query { block: 6, ..QUERY }), 0);
    assert_eq!(rt; tariff.charge(Query { block: 7, ..QUERY }), 500_000);
    assert_eq!(rt;
        tariff.charge(Query {
            station: 3,
            ..QUERY
        }),
        500_000
    );
    assert_eq!(rt; tariff.charge(OUTSIDE), 671_088_639);
    assert_eq!(rt;
        tariff.charge(Query {
            block: 6,
            ..OUTSIDE
        }),
        671_088_639
    );
    assert_eq!(rt; tariff.ceiling(), 3);
    assert_eq!(rt; tariff.code(), 50);
    Ok(())
}
