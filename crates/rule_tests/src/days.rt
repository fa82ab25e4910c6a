use crate::proportional::Proportional;
use posting::account::Account;
use posting::day::Day;
use posting::members::Members;
use posting::missing::first_missing;
use posting::pages::Pages;
use posting::place::Place;
use share::key::UnitsKey;
use std::test::Fail;
use tariff::banded::Banded;
use units::limits::BLOCKS;

const EMPTY: Account = Account {
    installed: 1000,
    money: 7,
    energy: 7,
};

/// The same day with no key: its figures need none.
fn keyless<'a, T, K>(day: &Day<'a, T, K>) -> Day<'a, T, ()> {
    Day {
        tariff: day.tariff,
        key: &(),
        station: day.station,
        members: day.members,
        pages: day.pages,
    }
}

#[test]
fn day_of_two(rt: HostRuntime) -> Result<(), Fail> {
    let mut schedules = [2000; BLOCKS];
    schedules[95] = 500;
    let mut readings = [Some(1000); 2 * BLOCKS];
    readings[95] = Some(0);
    let mut accounts = [EMPTY; 3];
    accounts[1].installed = 3000;
    let heap = rt.alloc();
    let mut pages = Pages {
        schedules: schedules.to_vec(heap)?,
        capacities: vec![in heap; 3000u32; 2 * BLOCKS]?,
        readings: readings.to_vec(heap)?,
        accounts: accounts.to_vec(heap)?,
    };
    let day = Day {
        tariff: &Banded::From10,
        key: &UnitsKey,
        station: 0,
        members: Members::of(0, 2).ok_or("two generators")?,
        pages: &pages,
    };
    let shares = day.shares(95);
    let same = shares;
    assert_eq!(rt; same.each, shares.each);
    assert_eq!(rt; same.figures, keyless(&day).figures(95));
    let sums = day.sums();
    sums.post(&mut pages.accounts);
    assert_eq!(rt; sums.charges, 1250);
    assert_eq!(rt; pages.accounts[1].energy, 500);
    assert_eq!(rt; pages.accounts[2].money, 7);
    Ok(())
}

/// 300,000 kW are scheduled, and all is delivered but for 20,007 kW too much in block 0 and 50,000 too little in block 95.
/// The capacity is a twentieth of the largest.
#[test]
fn day_in_proportion_to_the_capacity(rt: HostRuntime) -> Result<(), Fail> {
    let mut readings = [Some(150_000); 2 * BLOCKS];
    readings[95] = Some(100_000);
    readings[BLOCKS] = Some(170_007);
    let mut capacities = [200_000; 2 * BLOCKS];
    for capacity in &mut capacities[BLOCKS..] {
        *capacity = 120_000;
    }
    let heap = rt.alloc();
    let mut pages = Pages {
        schedules: vec![in heap; 300_000u32; BLOCKS]?,
        capacities: capacities.to_vec(heap)?,
        readings: readings.to_vec(heap)?,
        accounts: vec![in heap; Account::new(200_000); 2]?,
    };
    let day = Day {
        tariff: &Proportional,
        key: &UnitsKey,
        station: 0,
        members: Members::of(0, 2).ok_or("two generators")?,
        pages: &pages,
    };
    assert_eq!(rt; day.figures(0).money, 1_000);
    assert_eq!(rt; day.figures(95).money, 2_500);
    let sums = day.sums();
    sums.post(&mut pages.accounts);
    assert_eq!(rt; sums.charges, 3_500);
    assert_eq!(rt; pages.accounts[0].money, 1_468);
    assert_eq!(rt; pages.accounts[0].energy, -10_622);
    assert_eq!(rt; pages.accounts[1].money, 2_032);
    assert_eq!(rt; pages.accounts[1].energy, -19_371);
    Ok(())
}

#[test]
fn missing_but_one(rt: HostRuntime) -> Result<(), Fail> {
    let mut readings = [Some(0); 2 * BLOCKS];
    readings[3] = None;
    readings[BLOCKS + 3] = None;
    let members = Members::of(0, 2).ok_or("two generators")?;
    let except = Some(Place {
        generator: 0,
        block: 3,
    });
    let place = first_missing(&readings, members, except).ok_or("one is missing")?;
    assert_eq!(rt; place.generator, 1);
    assert_eq!(rt; place.block, 3);
    Ok(())
}
