//! The tariff and the key that a request asks for.
use tariff::banded::Banded;
use tariff::single::SingleRate;

/// The tariffs that a request can name.
#[derive(Clone, Copy)]
pub enum TariffChoice {
    Bands(Banded),
    Rates(SingleRate),
}

/// The keys that a request can name.
#[derive(Clone, Copy)]
pub enum KeyChoice {
    Units,
    Capacity,
}
