//! A place on the pages.

/// A generator, by its number through all stations, in a block.
#[derive(Clone, Copy, PartialEq, Eq)]
pub struct Place {
    pub generator: usize,
    pub block: usize,
}
