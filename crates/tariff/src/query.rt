ghost use Rattle.std.specs.Prelude.{◌≡◌, ◌≤◌};
ghost use Rattle.tariff.specs.Charges.{deviation_of, magnitude};
ghost use Rattle.tariff.specs.Ranges.{in_range};

use units::limits::STATION_KW;

/// What a tariff is asked of: one station in one block of the day.
#[derive(Clone, Copy)]
pub struct Query {
    /// The station's number, 0 to 15.
    pub station: u8,
    /// The block's number, 0 to 95.
    pub block: u8,
    /// The scheduled power, in kW.
    pub schedule: u32,
    /// The power that was delivered, in kW.
    pub actual: u32,
    /// The declared capacity, in kW.
    pub capacity: u32,
}

impl Query {
    /// The actual power less the scheduled, in kW: below zero where the station delivered too little.
    pub fn deviation(self) -> i64
        ensures { result ≡ deviation_of self }
    {
        i64::from(self.actual) - i64::from(self.schedule)
    }

    /// The deviation without its sign, in kW.
    pub fn magnitude(self) -> u64
        ensures value { result ≡ magnitude self }
        ensures bound { result ≤ u32.MAX }
    {
        u64::from(self.actual.abs_diff(self.schedule))
    }

    /// Whether schedule, actual and capacity are each at most 6,400,000 kW, which is the most that a station can have.
    pub fn is_in_range(self) -> bool
        ensures { result ≡ in_range self }
    {
        self.schedule <= STATION_KW && self.actual <= STATION_KW && self.capacity <= STATION_KW
    }
}
