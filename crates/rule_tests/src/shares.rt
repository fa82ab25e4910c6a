use crate::square::SquareKey;
use share::generator::Generator;
use share::generators::Generators;
use share::key::{CapacityKey, Key, UnitsKey};
use share::load::Load;
use share::weights::{Weights, split_by};
use std::test::Fail;
use units::limits::{GENERATORS, STATION_KW};

fn generator(installed: u32, capacity: u32, actual: u32) -> Generator {
    Generator::new(Load {
        actual,
        capacity,
        installed,
    })
}

#[test]
fn thirds(rt: HostRuntime) -> Result<(), Fail> {
    let equal = [generator(4000, 2000, 0); 3];
    let generators = Generators::of(&equal).ok_or("three generators")?;
    let receivable = split_by(&CapacityKey, &generators, -100);
    assert_eq!(rt; receivable.as_slice(), [-33, -33, -34].as_slice());
    Ok(())
}

#[test]
fn by_actual(rt: HostRuntime) -> Result<(), Fail> {
    let pair = [generator(1000, 1000, 0), generator(3000, 3000, 1500)];
    let generators = Generators::of(&pair).ok_or("two generators")?;
    let shares = split_by(&UnitsKey, &generators, i64::MIN);
    assert_eq!(rt; shares.as_slice(), [0, i64::MIN].as_slice());
    Ok(())
}

#[test]
fn by_square(rt: HostRuntime) -> Result<(), Fail> {
    let pair = [generator(100_000, 0, 0), generator(200_000, 0, 0)];
    let generators = Generators::of(&pair).ok_or("two generators")?;
    let shares = split_by(&SquareKey, &generators, 7_813);
    assert_eq!(rt; shares.as_slice(), [1_563, 6_250].as_slice());
    // Past the range a weight passes the generator's largest number.
    let beyond = Load {
        installed: STATION_KW + 1,
        ..Load::default()
    };
    assert_eq!(rt; SquareKey.weight(&beyond, &beyond), STATION_KW + 3);
    Ok(())
}

#[test]
fn given_weights(rt: HostRuntime) -> Result<(), Fail> {
    let each = [1 << 63, 0, 1 << 62];
    let weights = Weights::given(&each).ok_or("three weights")?;
    let shares = weights.split(i64::MIN);
    let first = -6_148_914_691_236_517_205;
    assert_eq!(rt; shares.as_slice(), [first, 0, i64::MIN - first].as_slice());
    assert!(rt; Weights::given(&[1 << 63, 1 << 63]).is_none());
    assert!(rt; Weights::given(&[0, 0]).is_none());
    assert!(rt; Weights::given(&[1; GENERATORS + 1]).is_none());
    Ok(())
}
