use quoting::answer::answer;
use quoting::request::read_request;
use std::alloc::Global;
use std::process::Abort;
use std::test::Fail;

const GENERATOR: &str = "generator 1000 0 0\n";

/// The quote that a text asks for, in lines.
fn quote(heap: Global, text: &str) -> Result<String, Fail> {
    let quotation = answer(text)?;
    Ok(format!(in heap; "{quotation}")?)
}

/// Each text is refused with its line.
fn refused(rt: &impl Abort, heap: Global, cases: &[(&str, &str)]) -> Result<(), Fail> {
    for &(text, line) in cases {
        let complaint = answer(text).err().ok_or("the request was granted")?;
        assert!(rt; complaint.to_string(heap)?.as_str() == line, "{}", line);
    }
    Ok(())
}

/// The quote that each text asks for has its line.
fn answered(rt: &impl Abort, heap: Global, cases: &[(&str, &str)]) -> Result<(), Fail> {
    for &(text, line) in cases {
        assert!(rt; quote(heap, text)?.as_str().contains(line), "{}", line);
    }
    Ok(())
}

/// A schedule and so many generators.
fn many(heap: Global, count: u32) -> Result<String, Fail> {
    let mut text = String::from_str(heap, "schedule 1\n")?;
    for _ in 0..count {
        text.push_str(GENERATOR)?;
    }
    Ok(text)
}

#[test]
fn whole_quote(rt: HostRuntime) -> Result<(), Fail> {
    let text =
        "tariff single 300 200\nkey units\nschedule 1000\ngenerator 2000 500 505\ngenerator 2000 500 505\n";
    let expected = "          schedule/kW  actual/kW capacity/kW deviation/kW   charge/paise
station          1000       1010        1000           10           -450

          number    money/paise   energy/kW
generator      0           -225           5
generator      1           -225           5
";
    assert!(rt; quote(rt.alloc(), text)?.as_str() == expected);
    Ok(())
}

/// A request and a quotation are copied as numbers are: each copy is used after the other.
#[test]
fn copies(rt: HostRuntime) -> Result<(), Fail> {
    let request = read_request("schedule 1\ngenerator 1000 0 1")?;
    let same_request = request;
    let quotation = request.quote();
    let same_quotation = quotation;
    assert_eq!(rt; same_request.quote().owed, quotation.owed);
    assert_eq!(rt; same_quotation.each.as_slice().len(), 1);
    assert_eq!(rt; quotation.each.as_slice().len(), 1);
    Ok(())
}

#[test]
fn defaults(rt: HostRuntime) -> Result<(), Fail> {
    // The key of units gives all to the generator that delivers, the key of capacity to the one that is able.
    let cases = [
        (
            "schedule 1000\ngenerator 2000 1000 1301",
            "station          1000       1301        1000          301           3788\n",
        ),
        (
            "tariff 15-25-35\nschedule 1000\ngenerator 2000 1000 1301",
            " 2525\n",
        ),
        (
            "schedule 900\ngenerator 1000 1000 0\ngenerator 1000 0 1000\n",
            "generator      1              0         100\n",
        ),
        (
            "\n  schedule   0 \r\n\ngenerator 1000 0 0\r\n",
            "station             0",
        ),
        (
            "key capacity\nschedule 900\ngenerator 1000 1000 0\ngenerator 1000 0 1000\n",
            "generator      0              0         100\n",
        ),
    ];
    answered(&rt, rt.alloc(), &cases)
}

#[test]
fn largest_numbers(rt: HostRuntime) -> Result<(), Fail> {
    let heap = rt.alloc();
    let most = many(heap, 32)?;
    let cases = [
        (
            "tariff single 4000 4000\nschedule 6400000\ngenerator 200000 200000 200000",
            "station       6400000     200000      200000     -6200000     6200000000\n",
        ),
        (most.as_str(), "generator     31"),
    ];
    answered(&rt, heap, &cases)?;
    let beyond = many(heap, 33)?;
    let line = "line 34: there are 32 generators already, and no more are allowed";
    refused(&rt, heap, &[(beyond.as_str(), line)])
}

#[test]
fn beyond_limits(rt: HostRuntime) -> Result<(), Fail> {
    let cases = [
        ("schedule 6400001", "line 1: the schedule is above 6400000"),
        (
            "schedule 99999999999999999999",
            "line 1: the schedule is above 6400000",
        ),
        (
            "schedule 1\ngenerator 999 0 0",
            "line 2: the installed power is below 1000",
        ),
        (
            "schedule 1\ngenerator 200001 0 0",
            "line 2: the installed power is above 200000",
        ),
        (
            "schedule 1\ngenerator 1000 1001 0",
            "line 2: the capacity is above 1000",
        ),
        (
            "schedule 1\ngenerator 1000 0 200001",
            "line 2: the reading is above 200000",
        ),
        (
            "tariff single 4001 0",
            "line 1: the export rate is above 4000",
        ),
        (
            "tariff single 0 4001",
            "line 1: the domestic rate is above 4000",
        ),
    ];
    refused(&rt, rt.alloc(), &cases)
}

#[test]
fn bad_words(rt: HostRuntime) -> Result<(), Fail> {
    let number = "line 1: word 2 is not a whole number in digits alone";
    let cases = [
        (
            "Schedule 1",
            "line 1: the first word is none of tariff, key, schedule and generator",
        ),
        (
            "tariff 10-20-40",
            "line 1: the tariff is none of 10-20-30, 15-25-35 and single",
        ),
        ("key unit", "line 1: the key is neither units nor capacity"),
        ("schedule", "line 1: the line does not have 2 words"),
        ("schedule 1 2", "line 1: the line does not have 2 words"),
        ("tariff single 1", "line 1: the line does not have 4 words"),
        (
            "schedule 1\ngenerator 1 2 3 4",
            "line 2: the line does not have 4 words",
        ),
        ("schedule -1", number),
        ("schedule +1", number),
        ("schedule 1kW", number),
    ];
    refused(&rt, rt.alloc(), &cases)
}

#[test]
fn bad_order(rt: HostRuntime) -> Result<(), Fail> {
    let cases = [
        ("", "line 1: the schedule is missing"),
        (
            "tariff 10-20-30\nkey units\n",
            "line 3: the schedule is missing",
        ),
        ("schedule 1\n", "line 2: there is no generator"),
        (
            "key units\ntariff 10-20-30\n",
            "line 2: the tariff stands before all other lines, once",
        ),
        (
            "schedule 1\nkey units\n",
            "line 2: the key stands before the schedule, once",
        ),
        (
            "schedule 1\nschedule 1\n",
            "line 2: there is a schedule already",
        ),
        (
            GENERATOR,
            "line 1: the schedule stands before the generators",
        ),
    ];
    refused(&rt, rt.alloc(), &cases)
}
