use layers::penalty::Penalty;
use layers::waiver::Waiver;
use std::test::Fail;
use tariff::banded::Banded;
use tariff::query::Query;
use tariff::tariff::Tariff;
use units::bits::BitSet;
use units::limits::BLOCKS;

#[test]
fn waiver_over_penalty_over_bands(rt: HostRuntime) -> Result<(), Fail> {
    let mut due = [None; BLOCKS];
    due[5] = Some(1_000);
    due[6] = Some(1_000);
    let mut disturbed = BitSet::new();
    disturbed.insert(6);
    let tariff = Waiver::new(Penalty::new(Banded::From10, 2, due)?, disturbed);
    let query = Query {
        station: 2,
        block: 5,
        schedule: 1_000,
        actual: 1_301,
        capacity: 2_000,
    };
    assert_eq!(rt; tariff.charge(query), 11_364);
    assert_eq!(rt; tariff.charge(Query { block: 6, ..query }), 0);
    assert_eq!(rt; tariff.charge(Query { block: 7, ..query }), 1_263);
    assert_eq!(rt;
        tariff.charge(Query {
            station: 3,
            ..query
        }),
        1_263
    );
    assert_eq!(rt; tariff.ceiling(), 114);
    assert_eq!(rt; tariff.code(), 10);
    Ok(())
}

/// A layered tariff is copied as what stands below it is.
#[test]
fn layers_are_copied(rt: HostRuntime) -> Result<(), Fail> {
    let tariff = Waiver::new(
        Penalty::new(Banded::From15, 2, [None; BLOCKS])?,
        BitSet::new(),
    );
    let same = tariff;
    assert_eq!(rt; same.code(), 15);
    assert_eq!(rt; tariff.code(), 15);
    Ok(())
}
